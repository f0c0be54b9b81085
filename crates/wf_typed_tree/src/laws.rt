// The laws of typed trees. Each is the contract of a function that does nothing.

ghost use Rattle.std.specs.Prelude.{◌≡◌, ℕ, true, ◌&&◌, Some, None, [], length, nat_eq, slice_get};
ghost use Rattle.std.specs.List.{list_all, flat_map};
ghost use Rattle.wf_ast.specs.TypedInvariant.{numbers_in, numbers_from};
ghost use Rattle.wf_ast.specs.WellTyped.{Context, all_structs_whole, may_be_arg, may_be_local, may_be_result, answers_always, calls_in_front, has_struct_order, well_typed};
ghost use Rattle.wf_named.specs.NamedTree.{NamedExprTree, NamedMethodTree, NamedPackageTree};
ghost use Rattle.wf_named.specs.WellNamed.{NamedScope, named_expr, scope_of_method, well_named};
ghost use Rattle.wf_named.specs.Grammar.{by_grammar, block_by_grammar, package_by_grammar};
ghost use Rattle.wf_types_rules.specs.declared.meanings.Meaning.{Meaning};
ghost use Rattle.wf_types_rules.specs.declared.settings.Setting.{Setting};
ghost use Rattle.wf_types_rules.specs.DeclaredTypes.{in_method};
ghost use Rattle.wf_types_rules.specs.ExprTypes.{meaning};
ghost use Rattle.wf_types_rules.specs.FirstBreak.{deciding};
ghost use Rattle.wf_typed_tree.specs.ElaboratedExprs.{expr_tree};
ghost use Rattle.wf_typed_tree.specs.ElaboratedPackage.{count_methods, typed_method, typed_package, context_of};
ghost use Rattle.wf_typed_tree.specs.MeaningTrees.{HasMeaning, Agree};
ghost use Rattle.wf_typed_tree.specs.TypedOrder.{TypedBodiesKeepOrder, TypedPackagesKeepOrder};

/// An expression that means something has a typed tree that keeps the rules and is one of its meaning: a constant
/// stands as its number, a number has its width. What stands round the expression has to be what stands round the
/// tree.
pub fn expressions_have_the_trees_of_their_meanings()
    ensures { (names : NamedScope) (s : Setting) (c : Context) → Agree names s c → (e : NamedExprTree) (m : Meaning) → by_grammar e ≡ true → named_expr names e ≡ true → meaning s e ≡ Some m → HasMeaning c m (expr_tree s e) }
{}

/// In a package that breaks no rule of names and types, what stands round the body of a method is what stands round
/// its typed body: so each expression in it that means something has such a tree.
pub fn what_stands_round_a_body_agrees()
    ensures { (p : NamedPackageTree) → deciding p ≡ None → well_named p ≡ true → (n i : ℕ) (m : NamedMethodTree) → slice_get p.methods i ≡ Some m → Agree (scope_of_method p m) (in_method p m) (context_of p n m) }
{}

/// The declarations of the typed tree of a package that breaks no rule keep the rules of typed packages: no struct
/// holds itself, each type may stand where it does, a method calls only methods before it, the fields
/// of a struct hold only structs before it, and a method with a
/// result never reaches its end.
pub fn declarations_keep_the_rules()
    ensures structs { (p : NamedPackageTree) → deciding p ≡ None → well_named p ≡ true → all_structs_whole (typed_package p) 0 (typed_package p).structs ≡ true }
    ensures order { (p : NamedPackageTree) → deciding p ≡ None → well_named p ≡ true → (nat_eq (length (typed_package p).order) (length (typed_package p).methods) && calls_in_front (typed_package p) [] (typed_package p).order) ≡ true }
    ensures struct_order { (p : NamedPackageTree) → deciding p ≡ None → well_named p ≡ true → has_struct_order (typed_package p) ≡ true }
    ensures args { (p : NamedPackageTree) → deciding p ≡ None → well_named p ≡ true → (n i : ℕ) (m : NamedMethodTree) → slice_get p.methods i ≡ Some m → list_all (λ x. may_be_arg x.ty) (typed_method p n m).args ≡ true }
    ensures locals { (p : NamedPackageTree) → deciding p ≡ None → well_named p ≡ true → (n i : ℕ) (m : NamedMethodTree) → slice_get p.methods i ≡ Some m → list_all (λ x. may_be_local x.ty) (typed_method p n m).locals ≡ true }
    ensures results { (p : NamedPackageTree) → deciding p ≡ None → well_named p ≡ true → (n i : ℕ) (m : NamedMethodTree) → slice_get p.methods i ≡ Some m → may_be_result m.mark (typed_method p n m).gives ≡ true }
    ensures ends { (p : NamedPackageTree) → deciding p ≡ None → well_named p ≡ true → (n i : ℕ) (m : NamedMethodTree) → slice_get p.methods i ≡ Some m → block_by_grammar m.body ≡ true → answers_always m.mark (typed_method p n m).gives (typed_method p n m).body ≡ true }
{}

/// The typed tree of a package that breaks no rule of names and types, and is one of the grammar, keeps every rule of
/// typed packages.
pub fn typed_packages_keep_the_rules()
    ensures { (p : NamedPackageTree) → deciding p ≡ None → well_named p ≡ true → package_by_grammar p ≡ true → well_typed (typed_package p) ≡ true }
{}

/// The statements of the typed tree of a package of the grammar are numbered in order, method by method, each after those
/// inside it.
pub fn statements_are_numbered_in_order()
    ensures { (p : NamedPackageTree) → package_by_grammar p ≡ true → flat_map (λ m. numbers_in m.body) (typed_package p).methods ≡ numbers_from 0 (count_methods p.methods) }
{}

/// Where the statements of a resolved body stand in order of place, so do those of the typed one; and so throughout a
/// package.
pub fn typing_keeps_the_order_of_statements()
    ensures bodies { TypedBodiesKeepOrder }
    ensures packages { TypedPackagesKeepOrder }
{}
