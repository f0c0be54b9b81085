// What the public functions of a package ask of the items of a text. Each name is looked up once.

ghost use Rattle.std.specs.Prelude.{◌≡◌, ◌<◌, ℕ, List, map, length, slice_get, Some, IfOk, OnOk};
ghost use Rattle.c_text.specs.CNodes.{unit_tree};
ghost use Rattle.c_form_exprs.specs.Tables.{named};
ghost use Rattle.c_form.specs.Items.{item_at};
ghost use Rattle.c_form.specs.Demands.{ask_function as asked_function, ask_struct as asked_struct, ask_functions, ask_all, ask_structs, none_asked};
ghost use Rattle.c_form.specs.Signatures.{signature_of, method_by};

use crate::names::{function_name, type_name};
use crate::signatures::{Asked, has_signature, is_struct};
use c_form_exprs::SpellingTable;
use c_text::Unit;
use std::alloc::Global;
use std::marker::Model;
use wf_bufs::{AnswerKind, MethodDecl, PublicSurface};
use wf_text::NoMemory;

/// Whether each item has met what was asked of its name, and whether all functions that were asked for are there.
pub(crate) struct Demands<'n, 'u> {
    unit: &'u Unit,
    names: &'n SpellingTable<'u, usize>,
    met: Vec<bool>,
    complete: bool,
}

impl<'n, 'u> Drop for Demands<'n, 'u> {
    fn drop(self) {
        let Demands {
            unit: _,
            names: _,
            met: _,
            complete: _,
        } = self;
    }
}

impl<'n, 'u> Model for Demands<'n, 'u> {
    ghost use Rattle.std.specs.Prelude.{◌≡◌, ℕ, List, length};
    ghost use Rattle.c_text.specs.CNodes.{unit_tree};
    ghost use Rattle.c_form_exprs.specs.Tables.{named};
    ghost use Rattle.c_form.specs.Items.{item_at};
    ghost use Rattle.c_form.specs.Demands.{Tally};

    ghost Value = { Tally };

    ghost view = { λ it. record { nodes = it.unit.now; met = it.met.items; complete = it.complete } };

    ghost invariant = { λ it. (length it.met.items ≡ length it.unit.now.items) × ((q : List ℕ) → named it.names.now q ≡ item_at 0 (unit_tree it.unit.now) q) };
}

impl<'n, 'u> Demands<'n, 'u> {
    /// What the package with this surface asks of the unit, whose items have these names.
    pub(crate) fn of(
        alloc: Global,
        unit: &'u Unit,
        names: &'n SpellingTable<'u, usize>,
        surface: &PublicSurface,
    ) -> Result<Demands<'n, 'u>, NoMemory>
        requires { (q : List ℕ) → named names.now q ≡ item_at 0 (unit_tree unit.now) q }
        ensures { IfOk result (λ it. it ≡ ask_structs surface.now (none_asked unit.now) surface.now.structs) }
    {
        let mut demands = Demands::new(alloc, unit, names)?;
        for it in surface.structs.as_slice() {
            let of = type_name(alloc, surface.package_name.as_slice(), it.name.as_slice())?;
            demands.ask(alloc, of.as_slice(), it.methods.as_slice())?;
        }
        Ok(demands)
    }

    /// Nothing is asked yet.
    fn new(
        alloc: Global,
        unit: &'u Unit,
        names: &'n SpellingTable<'u, usize>,
    ) -> Result<Demands<'n, 'u>, NoMemory>
        requires { (q : List ℕ) → named names.now q ≡ item_at 0 (unit_tree unit.now) q }
        ensures { IfOk result (λ it. it ≡ none_asked unit.now) }
    {
        let met = vec![in alloc; true; unit.items()]?;
        Ok(Demands {
            unit,
            names,
            met,
            complete: true,
        })
    }

    /// Asks for a function of this name.
    fn ask_function(&mut self, name: &[u8], asked: Asked<'_>)
        ensures { self.new ≡ asked_function self.old (signature_of name.now asked.entry) }
    {
        match self.names.get(name) {
            Some(i) => {
                if !has_signature(self.unit, i, asked) {
                    self.met[i] = false;
                }
            }
            None => self.complete = false,
        }
    }

    /// Asks that what has this name is a struct.
    fn ask_struct(&mut self, name: &[u8])
        ensures { self.new ≡ asked_struct self.old name.now }
    {
        match self.names.get(name) {
            Some(i) => {
                if !is_struct(self.unit, i) {
                    self.met[i] = false;
                }
            }
            None => {}
        }
    }

    /// Asks for the methods of a struct with this type.
    fn ask_methods(
        &mut self,
        alloc: Global,
        of: &[u8],
        methods: &[MethodDecl],
    ) -> Result<(), NoMemory>
        ensures { OnOk result (self.new ≡ ask_functions self.old (map (method_by of.now) methods.now)) }
    {
        for method in methods {
            let name = function_name(alloc, of, method.name.as_slice())?;
            let asked = Asked {
                of,
                args: method.args.as_slice(),
                answers: method.answers,
            };
            self.ask_function(name.as_slice(), asked);
        }
        Ok(())
    }

    /// Asks for what belongs to a struct with this type.
    fn ask(&mut self, alloc: Global, of: &[u8], methods: &[MethodDecl]) -> Result<(), NoMemory>
        ensures { OnOk result (self.new ≡ ask_all self.old of.now methods.now) }
    {
        self.ask_struct(of);
        let initialize = function_name(alloc, of, b"initialize")?;
        let asked = Asked {
            of,
            args: &[],
            answers: AnswerKind::Status,
        };
        self.ask_function(initialize.as_slice(), asked);
        self.ask_methods(alloc, of, methods)
    }

    /// Whether the item with this number has met what was asked.
    pub(crate) fn are_met(&self, i: usize) -> bool
        requires { i < length self.now.met }
        ensures { slice_get self.now.met i ≡ Some result }
    {
        self.met[i]
    }

    /// Whether all functions that were asked for are there.
    pub(crate) fn are_complete(&self) -> bool
        ensures { result ≡ self.now.complete }
    {
        self.complete
    }
}
