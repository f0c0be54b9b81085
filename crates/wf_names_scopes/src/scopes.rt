// What is known at a place besides the tables of the package. From a declaration to the next only `this` and the method are
// replaced; each constant is known after its declaration.

ghost use Rattle.std.specs.Prelude.{◌≡◌, ◌++◌, [], ◌∷◌, List, Some, map, slice_get, OnOk};
ghost use Rattle.wf_names_rules.specs.Declarations.{Declared, Method, Variable, as_variable};
ghost use Rattle.wf_names_rules.specs.Uses.{constant_scope};
ghost use Rattle.wf_names_scopes.specs.Agreeing.{TellsScope, TellsConstants};
ghost use Rattle.wf_names_scopes.specs.Growing.{scope_in};

use crate::numbers::next_number;
use wf_ast::parsed::Name;
use wf_names_rules::tables::Scope;
use wf_text::faults::NoMemory;

/// Where no constant is declared yet.
pub fn outside() -> Scope
    ensures { (d : Declared) → TellsScope d (constant_scope []) result }
{
    Scope {
        constants: 0,
        this: None,
        method: None,
    }
}

/// Past the declaration of the next constant of the package: it is known after those that are. `Err` where no number is left.
pub fn pass_constant(scope: &mut Scope) -> Result<(), NoMemory>
    ensures { OnOk result ((d : Declared) (known left : List Variable) (v : Variable) → (known ++ v ∷ []) ++ left ≡ map as_variable d.constants
        → TellsScope d (constant_scope known) scope.old → TellsScope d (constant_scope (known ++ v ∷ [])) scope.new) }
{
    scope.constants = next_number(scope.constants)?;
    Ok(())
}

/// On to a struct of this name.
pub fn enter_struct(scope: &mut Scope, name: Name)
    ensures { (d : Declared) → TellsConstants d scope.old → TellsScope d (scope_in d name [] []) scope.new }
{
    scope.this = Some(name.text.0);
    scope.method = None;
}

/// On to the method of this number, of the struct with the name `owner`.
pub fn enter_method(scope: &mut Scope, owner: Name, number: usize)
    ensures { (d : Declared) (m : Method) → TellsConstants d scope.old → slice_get d.methods number ≡ Some m
        → TellsScope d (scope_in d owner m.args m.locals) scope.new }
{
    scope.this = Some(owner.text.0);
    scope.method = Some(number);
}
