// The laws of expressions. Each is the contract of a function that does nothing.

ghost use Rattle.wf_typed_expr_laws.specs.ExprLaws.{MeaningsAreTyped, TreesKeepPlaces};

/// What the rules of types work out of an expression is what the rule of its form gives: an operator takes numbers of one width,
/// where a constant without a width lies in that of the others, and gives a number of it; a shift keeps the width of its left side;
/// a comparison, `and`, `or` and `not` give a bool; `as` gives the width that it names; an index gives an element.
pub fn meanings_are_typed()
    ensures { MeaningsAreTyped }
{}

/// The typed tree of an expression that means something stands at the expression's place.
pub fn trees_keep_places()
    ensures { TreesKeepPlaces }
{}
