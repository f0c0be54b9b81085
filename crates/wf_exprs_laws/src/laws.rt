// The laws of expressions. Each is the contract of a function that does nothing.

ghost use Rattle.wf_exprs_laws.specs.AheadLaw.{IsAheadLaw};
ghost use Rattle.wf_exprs_laws.specs.ExprLaw.{IsExprLaw, IsStored};
ghost use Rattle.wf_exprs_laws.specs.HelperLaw.{IsHelperLaw};

/// Where C's memory stands for what the source has, and what an expression uses is declared, an expression that isn't stuck has the
/// same value in C, and takes no undefined step.
pub fn expressions_have_their_values()
    ensures { IsExprLaw }
{}

/// A number that is assigned to a cell of a width that holds it is in the cell as it is, whatever type represents it.
pub fn numbers_are_stored_as_they_are()
    ensures { IsStored }
{}

/// The functions that a text declares for the saturating operators give what the operators do, and a call of one in an
/// expression stands for the operator: so a text that declares them meets what the law of expressions supposes of them.
pub fn helpers_do_as_they_say()
    ensures { IsHelperLaw }
{}

/// A number of which a reader has all bytes is the expression that takes them at once, of 16, 32 and 64 bits and in both orders.
pub fn numbers_ahead_are_what_bytes_spell()
    ensures { IsAheadLaw }
{}
