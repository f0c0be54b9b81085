// The graphs of a package, of its structs that hold each other and of its methods that call each other: their cycles, and what
// those on cycles break.

ghost use Rattle.std.specs.Prelude.{◌≡◌, ◌<◌, ◌-◌, ◌^◌, ℕ, List, length, IfOk};
ghost use Rattle.graphs.specs.Graphs.{AreWithin};
ghost use Rattle.wf_names_rules.specs.Declarations.{Declared};
ghost use Rattle.wf_names_rules.specs.Found.{IsOnCycle};
ghost use Rattle.wf_names_rules.specs.NameRules.{CycleBreaks};
ghost use Rattle.wf_names_rules.specs.StructRows.{AreStructRows};
ghost use Rattle.wf_names_scopes.specs.CallRows.{AreRows};
ghost use Rattle.wf_names_cycles.specs.CyclesFound.{DecidesWith, HoldsItself, Recursion, AreCyclesOf, AreStructCycles, AreMethodCycles, ArePackageCycles, struct_names, method_names};

use graphs::cycles::{Cycles, find_cycles};
use graphs::rows::Row;
use std::alloc::Global;
use wf_ast::parsed::Name;
use wf_names_rules::lists::flagged;
use wf_text::faults::NoMemory;
use wf_text::found::Found;
use wf_text::rules::Rule;

/// The structs of a package, or its methods: their names, in order, and the cycles of their graph.
pub struct NamedCycles {
    pub names: Vec<Name>,
    pub cycles: Cycles,
}

impl Drop for NamedCycles {
    fn drop(self) {
        let NamedCycles {
            names: _,
            cycles: _,
        } = self;
    }
}

impl NamedCycles {
    // The numbers alone, in order.
    fn into_order(self) -> Vec<u32>
        ensures { result ≡ self.cycles.order }
    {
        let NamedCycles { names: _, cycles } = self;
        cycles.order
    }
}

/// The cycles of the structs of a package that hold each other, and of its methods that call each other.
pub struct PackageCycles {
    pub structs: NamedCycles,
    pub methods: NamedCycles,
}

impl Drop for PackageCycles {
    fn drop(self) {
        let PackageCycles {
            structs: _,
            methods: _,
        } = self;
    }
}

impl PackageCycles {
    /// The numbers of the structs, each after those that its fields hold, and of the methods, each after those that it calls, apart
    /// from those that have a way back to it.
    pub fn into_orders(self) -> (Vec<u32>, Vec<u32>)
        ensures { result ≡ (self.structs.cycles.order, self.methods.cycles.order) }
    {
        let PackageCycles { structs, methods } = self;
        (structs.into_order(), methods.into_order())
    }
}

/// The structs or the methods that are declared, by their names in order, and the cycles of their graph: `rows` lists for each
/// struct those that it holds, or for each method those that it calls. `Err` where memory was refused. The time is in proportion
/// to the names and all that `rows` lists.
pub fn named_cycles(alloc: Global, names: Vec<Name>, rows: &[Row]) -> Result<NamedCycles, NoMemory>
    requires few { length rows.now < 2 ^ 32 - 1 }
    requires within { AreWithin rows.now (length rows.now) }
    ensures structs { IfOk result (λ named. (d : Declared) → AreStructRows d rows.now → names.items ≡ struct_names d.structs → AreStructCycles d named) }
    ensures methods { IfOk result (λ named. (d : Declared) → AreRows d rows.now (length d.methods) → names.items ≡ method_names d.methods → AreMethodCycles d named) }
{
    let cycles = find_cycles(alloc, rows)?;
    Ok(NamedCycles { names, cycles })
}

// The rule at the names on cycles joins what was found before.
fn on_cycles(found: &mut Found, rule: Rule, named: &NamedCycles)
    ensures { (rows : List (List ℕ)) → AreCyclesOf rows named.now → DecidesWith (IsOnCycle rule rows named.now.names.items) found.old found.new }
{
    flagged(
        found,
        rule,
        named.cycles.flags.as_slice(),
        named.names.as_slice(),
    );
}

// N4 at structs that hold themselves through fields joins what was found before.
fn holds_itself(found: &mut Found, structs: &NamedCycles)
    ensures { (d : Declared) → AreStructCycles d structs.now → DecidesWith (HoldsItself d) found.old found.new }
{
    on_cycles(found, Rule::N4, structs);
}

// N4 at methods that can reach themselves by calls joins what was found before.
fn recursion(found: &mut Found, methods: &NamedCycles)
    ensures { (d : Declared) → AreMethodCycles d methods.now → DecidesWith (Recursion d) found.old found.new }
{
    on_cycles(found, Rule::N4, methods);
}

/// N4 at structs that hold themselves and methods that can reach themselves by calls joins what was found before.
pub fn cycle_breaks(found: &mut Found, cycles: &PackageCycles)
    ensures { (d : Declared) → ArePackageCycles d cycles.now → DecidesWith (CycleBreaks d) found.old found.new }
{
    holds_itself(found, &cycles.structs);
    recursion(found, &cycles.methods);
}
