// The rows of the methods are the graph of their calls. Each law is the contract of a function that does nothing.

ghost use Rattle.std.specs.Prelude.{◌++◌, ℕ, List, [], ◌∷◌, length};
ghost use Rattle.wf_names_rules.specs.Declarations.{Declared, Method};
ghost use Rattle.wf_names_rules.specs.Uses.{method_uses, method_scope};
ghost use Rattle.wf_names_rules.specs.Meanings.{Known, known_at};
ghost use Rattle.wf_names_scopes.specs.CallRows.{AgreeOnCalls, IsRowOf, AreRows, AreRowsInFront, called_in};

/// The row of a method has exactly the methods that it calls, where names stand for what they stand for in it.
pub fn rows_are_the_calls()
    ensures { (d : Declared) (m : Method) (k : Known) → AgreeOnCalls k (known_at d (method_scope d m)) → IsRowOf d m (called_in k (method_uses m)) }
{}

/// Rows that are made one by one, in the order of the methods, are those of all of them.
pub fn rows_are_made_one_by_one()
    ensures none { (d : Declared) → AreRowsInFront d [] d.methods }
    ensures more { (d : Declared) (rows : List (List ℕ)) (m : Method) (row : List ℕ) (left : List Method) → AreRowsInFront d rows (m ∷ left)
        → IsRowOf d m row → AreRowsInFront d (rows ++ row ∷ []) left }
    ensures all { (d : Declared) (rows : List (List ℕ)) → AreRowsInFront d rows [] → AreRows d rows (length d.methods) }
{}
