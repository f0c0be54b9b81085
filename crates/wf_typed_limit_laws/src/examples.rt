// Worked examples: the bytes of the structs of two packages. Each is the contract of a function that does nothing.

ghost use Rattle.std.specs.Prelude.{◌≡◌, [], ◌∷◌, codes};
ghost use Rattle.wf_text.specs.declared.rules.Refusal.{Refusal};
ghost use Rattle.wf_text.specs.declared.rules.Rule.TheVariants.{L7};
ghost use Rattle.wf_ast.specs.ParsedTree.{no_field};
ghost use Rattle.wf_named.specs.Examples.{at};
ghost use Rattle.wf_names_rules.specs.Declarations.{declared};
ghost use Rattle.wf_names_rules.specs.NameRules.{SizeBreaks};
ghost use Rattle.wf_names_resolve.specs.Package.{resolved_package};
ghost use Rattle.wf_typed_tree.specs.ElaboratedPackage.{typed_package};
ghost use Rattle.wf_typed_limit_laws.specs.StructBytes.{HasBytes};
ghost use Rattle.wf_typed_limit_laws.specs.Examples.{small_texts, small_decls, inner, outer, large_texts, large_decls, one_byte, largest};

/// A u16, a bool, a status and an array of 100 u32 have 411 bytes; a u64 and a struct of these have 427.
pub fn a_small_package()
    ensures structs { (typed_package (resolved_package (codes "small") small_texts small_decls [] [])).structs ≡ inner ∷ outer ∷ [] }
    ensures inner { HasBytes (inner ∷ outer ∷ []) inner.fields 411 }
    ensures outer { HasBytes (inner ∷ outer ∷ []) outer.fields 427 }
{}

/// Two arrays of 65,536 u64 have 1,048,576 bytes, which the rules of names allow; one byte more is refused.
pub fn the_largest_struct()
    ensures structs { (typed_package (resolved_package (codes "large") large_texts (large_decls no_field) [] [])).structs ≡ largest ∷ [] }
    ensures bytes { HasBytes (largest ∷ []) largest.fields 1048576 }
    ensures passes { (refusal : Refusal) → SizeBreaks (declared large_texts (large_decls no_field)) refusal → ⊥ }
    ensures one_byte_more { SizeBreaks (declared large_texts (large_decls one_byte)) (record { rule = L7; at = at 1 68 }) }
{}
