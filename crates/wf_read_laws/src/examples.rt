// Worked examples: parsed trees that files have, and others that none has. Each is the contract of a function that does
// nothing.

ghost use Rattle.std.specs.Prelude.{◌≡◌, true, false, None, Some, [], ◌∷◌, codes};
ghost use Rattle.std.specs.List.{list_all, list_any};
ghost use Rattle.wf_ast.specs.declared.operators.Op.TheVariants.{Add, Mul, BitAnd, BitOr, BitXor, And, Or, Sub, Div, Rem, Shl, Shr, Same, Differs, Less, LessOrSame, Greater, GreaterOrSame, ModAdd, ModSub, ModMul, ModShl, SatAdd, SatSub};
ghost use Rattle.wf_ast.specs.declared.parsed.WrittenMark.TheVariants.{Unmarked, Exclamation, Question};
ghost use Rattle.wf_ast.specs.ParsedTree.{no_else};
ghost use Rattle.wf_ast.specs.WellFormed.{formed_expr, formed_stmt, well_formed};
ghost use Rattle.wf_named.specs.Grammar.{package_by_grammar};
ghost use Rattle.wf_names_resolve.specs.Examples.{counting_texts, counting_decls};
ghost use Rattle.wf_names_resolve.specs.Package.{resolved_package};
ghost use Rattle.wf_read_laws.specs.Examples.{literal, of_one, of_two, of_three, called, assigned, branched, one_arm, else_alone};

/// A literal has 64 bits. Seven operators may stand in a row, and none has a single operand.
pub fn expressions_that_files_have()
    ensures largest { formed_expr (literal 18446744073709551615) ≡ true }
    ensures too_large { formed_expr (literal 18446744073709551616) ≡ false }
    ensures single { list_any (λ op. formed_expr (of_one op)) (Add ∷ Sub ∷ Same ∷ ModAdd ∷ []) ≡ false }
    ensures pairs { list_all (λ op. formed_expr (of_two op)) (Add ∷ Sub ∷ Same ∷ ModAdd ∷ []) ≡ true }
    ensures rows { list_all (λ op. formed_expr (of_three op)) (Add ∷ Mul ∷ BitAnd ∷ BitOr ∷ BitXor ∷ And ∷ Or ∷ []) ≡ true }
    ensures no_rows { list_any (λ op. formed_expr (of_three op)) (Sub ∷ Div ∷ Rem ∷ Shl ∷ Shr ∷ Same ∷ Differs ∷ Less ∷ LessOrSame ∷ Greater ∷ GreaterOrSame ∷ ModAdd ∷ ModSub ∷ ModMul ∷ ModShl ∷ SatAdd ∷ SatSub ∷ []) ≡ false }
{}

/// A call that is a statement has a mark, the operator before an `=` gives a number, and an `if` has a condition.
pub fn statements_that_files_have()
    ensures marked { list_all (λ mark. formed_stmt (called mark)) (Exclamation ∷ Question ∷ []) ≡ true }
    ensures unmarked { formed_stmt (called Unmarked) ≡ false }
    ensures plain { formed_stmt (assigned None) ≡ true }
    ensures updates { list_all (λ op. formed_stmt (assigned (Some op))) (Add ∷ Sub ∷ Mul ∷ Div ∷ Rem ∷ Shl ∷ Shr ∷ BitAnd ∷ BitOr ∷ BitXor ∷ ModAdd ∷ ModSub ∷ ModMul ∷ ModShl ∷ SatAdd ∷ SatSub ∷ []) ≡ true }
    ensures no_updates { list_any (λ op. formed_stmt (assigned (Some op))) (And ∷ Or ∷ Same ∷ Differs ∷ Less ∷ LessOrSame ∷ Greater ∷ GreaterOrSame ∷ []) ≡ false }
    ensures condition { formed_stmt (branched one_arm) ≡ true }
    ensures no_condition { formed_stmt (branched else_alone) ≡ false }
    ensures no_arm { formed_stmt (branched no_else) ≡ false }
{}

/// A package with a status, a constant, a struct and two methods is well formed, and resolved as the grammar gives.
pub fn a_package_that_files_have()
    ensures formed { list_all well_formed counting_decls ≡ true }
    ensures resolved { package_by_grammar (resolved_package (codes "count") counting_texts counting_decls (1 ∷ 0 ∷ []) (0 ∷ [])) ≡ true }
{}
