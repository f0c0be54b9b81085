// The laws of instructions. Each is the contract of a function that does nothing.

ghost use Rattle.std.specs.Prelude.{◌≡◌, ℕ, List, ◌∷◌, ◌++◌, Option, option_map, reverse};
ghost use Rattle.c_text.specs.CTree.{ExprTree, Args};
ghost use Rattle.c_meaning.specs.declared.values.CValue.{CValue};
ghost use Rattle.c_meaning.specs.declared.values.CValue.TheVariants.{Address as address};
ghost use Rattle.c_meaning.specs.CExprs.{Surroundings, value, place, arg_values, all_some};
ghost use Rattle.c_step_exprs.specs.Instrs.{exec};
ghost use Rattle.c_step_exprs.specs.Resolving.{value_code, place_code, args_code};
ghost use Rattle.c_step_exprs.specs.Values.{around, AreCalled};

/// The instructions of an expression put its value on the stack, where it has one, and those of an lvalue its place;
/// where it has none their run ends. Those of a call's arguments put all their values, the last one on top, where each
/// has one.
pub fn instructions_put_the_value()
    ensures value { (s : Surroundings) (calls : ℕ → List CValue → Option CValue) (e : ExprTree) (stack : List CValue) → AreCalled s calls
        → exec (around s calls) 0 (value_code s.scope e) stack ≡ option_map (λ v. v ∷ stack) (value s e) }
    ensures place { (s : Surroundings) (calls : ℕ → List CValue → Option CValue) (e : ExprTree) (stack : List CValue) → AreCalled s calls
        → exec (around s calls) 0 (place_code s.scope e) stack ≡ option_map (λ p. address p ∷ stack) (place s e) }
    ensures args { (s : Surroundings) (calls : ℕ → List CValue → Option CValue) (given : Args) (stack : List CValue) → AreCalled s calls
        → exec (around s calls) 0 (args_code s.scope given) stack ≡ option_map (λ vs. reverse vs ++ stack) (all_some (arg_values s given)) }
{}
