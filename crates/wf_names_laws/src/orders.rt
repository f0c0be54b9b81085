// An order of the graph of calls is an order of the methods of the resolved package, and one of the graph of the structs an
// order of its structs. Each law is the contract of a function that does
// nothing.

ghost use Rattle.std.specs.Prelude.{◌≡◌, ◌≤◌, ℕ, true, [], None, List, length, nat_eq};
ghost use Rattle.wf_text.specs.declared.rules.Refusal.{Refusal};
ghost use Rattle.wf_text.specs.Precedence.{Decides};
ghost use Rattle.wf_ast.specs.ParsedTree.{DeclTree};
ghost use Rattle.wf_named.specs.WellNamed.{calls_in_front, has_struct_order};
ghost use Rattle.wf_names_rules.specs.Declarations.{Declared, declared, methods_of};
ghost use Rattle.graphs.specs.Graphs.{AreWithin};
ghost use Rattle.wf_names_rules.specs.NameRules.{Breaks, DeclarationBreaks, UseBreaks, CycleBreaks};
ghost use Rattle.wf_names_scopes.specs.CallRows.{AreRows};
ghost use Rattle.wf_names_rules.specs.StructRows.{AreStructRows};
ghost use Rattle.wf_names_resolve.specs.Package.{resolved_package};
ghost use Rattle.wf_names_laws.specs.Calling.{AreOpen};
ghost use Rattle.graphs.specs.Orders.{IsOrder, HasCycle};

/// The rows of the calls of a package are a graph over their own numbers (clause `within`), which is small where no rule
/// of declarations is broken (clause `few`), and a cycle in it breaks a rule (clause `cycle`).
pub fn rows_of_calls_are_a_graph()
    ensures within { (d : Declared) (rows : List (List ℕ)) → AreRows d rows (length d.methods) → AreWithin rows (length rows) }
    ensures few { (d : Declared) (rows : List (List ℕ)) → AreRows d rows (length d.methods) → Decides (DeclarationBreaks d) None → length rows ≤ 1024 }
    ensures cycle { (d : Declared) (rows : List (List ℕ)) → AreRows d rows (length d.methods) → HasCycle rows → (s : Refusal) × CycleBreaks d s }
{}

/// Where the uses of names break no rule every call is of a method that may be called there.
pub fn where_no_rule_is_broken_calls_are_open()
    ensures { (d : Declared) → Decides (UseBreaks d) None → AreOpen d }
{}

/// With an order of the graph of calls a resolved package has all its methods in its order (clause `whole`), and each
/// calls only those before it, if each call is of a method that may be called there (clause `front`).
pub fn an_order_of_calls_is_one_of_the_package()
    ensures whole { (name : List ℕ) (texts : List (List ℕ)) (decls : List DeclTree) (order struct_order : List ℕ) (rows : List (List ℕ))
        → AreRows (declared texts decls) rows (length (methods_of decls)) → IsOrder rows order
        → nat_eq (length order) (length (resolved_package name texts decls order struct_order).methods) ≡ true }
    ensures front { (name : List ℕ) (texts : List (List ℕ)) (decls : List DeclTree) (order struct_order : List ℕ) (rows : List (List ℕ))
        → AreRows (declared texts decls) rows (length (methods_of decls)) → IsOrder rows order → AreOpen (declared texts decls)
        → calls_in_front (resolved_package name texts decls order struct_order) [] order ≡ true }
{}

/// Where no rule of names is broken the graph of the structs has no cycle (clause `cycle`), and with an order of it a resolved
/// package has all its structs in its order, each after those that its fields hold (clause `front`).
pub fn an_order_of_structs_is_one_of_the_package()
    ensures cycle { (texts : List (List ℕ)) (decls : List DeclTree) (rows : List (List ℕ)) → Decides (Breaks (declared texts decls)) None
        → AreStructRows (declared texts decls) rows → HasCycle rows → ⊥ }
    ensures front { (name : List ℕ) (texts : List (List ℕ)) (decls : List DeclTree) (order struct_order : List ℕ) (rows : List (List ℕ)) → Decides (Breaks (declared texts decls)) None
        → AreStructRows (declared texts decls) rows → IsOrder rows struct_order → has_struct_order (resolved_package name texts decls order struct_order) ≡ true }
{}
