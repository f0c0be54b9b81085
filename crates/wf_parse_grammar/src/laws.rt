// The laws of the grammar and its machine. Each is the contract of a function that does nothing.

ghost use Rattle.std.specs.Prelude.{◌≡◌, ℕ, Bool, true, false, List, [], ◌∷◌, ◌++◌, Some};
ghost use Rattle.wf_parse_grammar.specs.declared.tokens.Token.{Token};
ghost use Rattle.wf_parse_grammar.specs.declared.symbols.Sym.{Sym};
ghost use Rattle.wf_parse_grammar.specs.declared.symbols.Sym.TheVariants.{File};
ghost use Rattle.wf_parse_grammar.specs.declared.symbols.Want.{Want};
ghost use Rattle.wf_parse_grammar.specs.declared.symbols.Want.TheVariants.{Read};
ghost use Rattle.wf_parse_grammar.specs.Grammar.{FileForm, file_before};
ghost use Rattle.wf_parse_grammar.specs.Feeding.{feeds};
ghost use Rattle.wf_parse_grammar.specs.Completions.{completions};
ghost use Rattle.wf_parse_grammar.specs.Files.{IsFile};
ghost use Rattle.wf_parse_grammar.specs.Machine as reading;
ghost use Rattle.wf_parse_grammar.specs.Building as building;
ghost use Rattle.wf_parse_grammar.specs.Building.{Built, Refused};
ghost use Rattle.wf_parse_grammar.specs.Meaning.{file_trees};
ghost use Rattle.wf_parse_grammar.specs.Refusals.{IsAccepted, IsRefused};
ghost use Rattle.wf_parse_grammar.specs.Statements.{IsShortDecl};
ghost use Rattle.std.specs.List.{AllByRecursion};
ghost use Rattle.wf_ast.specs.ParsedTree.{DeclTree};
ghost use Rattle.wf_text.specs.declared.rules.Rule.{Rule};
ghost use Rattle.wf_parse_grammar.specs.Values.{Made};
ghost use Rattle.wf_parse_grammar.specs.Erasure.{erased, outcome};

/// Live tokens: where the machine has read these tokens, they begin a file. After them, the completions of all
/// that is still wanted, from the innermost outwards, make one.
pub fn what_is_read_begins_a_file()
    ensures { (front : List Token) (wanted : List Sym) → feeds front (File ∷ []) ≡ Some wanted
        → IsFile (front ++ completions wanted []) }
{}

/// Every file of the grammar is read to its end.
pub fn every_file_is_read()
    ensures { (f : FileForm) → feeds (file_before f []) (File ∷ []) ≡ Some (File ∷ []) }
{}

/// What is made takes no part in what is read: a building run refuses exactly where and by what rule the reading
/// run on its symbols does, and is built exactly where that one is accepted.
pub fn building_is_reading()
    ensures { (limited : Bool) (room : ℕ) (tokens : List Token) (wants : List Want) (made : Made)
        → outcome (building.run limited room tokens wants made) ≡ reading.run limited room tokens (erased wants) }
{}

/// Every file is built to the trees of its declarations, after those that were made before, where no limit is set.
pub fn every_file_is_built()
    ensures { (f : FileForm) (room : ℕ) (decls : List DeclTree)
        → building.run false room (file_before f []) (Read File ∷ []) (record { vals = []; decls = decls })
        ≡ Built (record { vals = []; decls = decls ++ file_trees f }) }
{}

/// What is built, with limits or without, is a file, and what is made are the trees of its declarations after those
/// that were made before.
pub fn what_is_built_is_a_file()
    ensures { (limited : Bool) (room : ℕ) (tokens : List Token) (decls : List DeclTree) (made : Made)
        → building.run limited room tokens (Read File ∷ []) (record { vals = []; decls = decls }) ≡ Built made
        → (f : FileForm) × (tokens ≡ file_before f []) × (made ≡ record { vals = []; decls = decls ++ file_trees f }) }
{}

/// The grammar is unambiguous: files of the same tokens have the same trees.
pub fn a_file_has_one_meaning()
    ensures { (f g : FileForm) → file_before f [] ≡ file_before g [] → file_trees f ≡ file_trees g }
{}

/// A run with limits builds the files within them, each to its trees, and nothing else.
pub fn what_is_accepted_is_built()
    ensures accepted { (room : ℕ) (tokens : List Token) (decls : List DeclTree) (made : Made)
        → building.run true room tokens (Read File ∷ []) (record { vals = []; decls = decls }) ≡ Built made
        → (trees : List DeclTree) × IsAccepted tokens trees × (made ≡ record { vals = []; decls = decls ++ trees }) }
    ensures built { (room : ℕ) (tokens : List Token) (decls trees : List DeclTree) → IsAccepted tokens trees
        → building.run true room tokens (Read File ∷ []) (record { vals = []; decls = decls })
        ≡ Built (record { vals = []; decls = decls ++ trees }) }
{}

/// A run with limits refuses every other list of tokens where and for the reason that it tells, and nothing else.
pub fn what_is_refused_is_wrong()
    ensures wrong { (room : ℕ) (tokens : List Token) (decls : List DeclTree) (rule : Rule) (left : ℕ)
        → building.run true room tokens (Read File ∷ []) (record { vals = []; decls = decls }) ≡ Refused rule left
        → IsRefused tokens rule left }
    ensures refused { (room : ℕ) (tokens : List Token) (decls : List DeclTree) (rule : Rule) (left : ℕ) → IsRefused tokens rule left
        → building.run true room tokens (Read File ∷ []) (record { vals = []; decls = decls }) ≡ Refused rule left }
{}

/// No list of tokens is accepted with two lists of trees, or both accepted and refused, or refused by two rules or at two
/// places.
pub fn one_verdict()
    ensures accepted { (tokens : List Token) (trees others : List DeclTree) → IsAccepted tokens trees → IsAccepted tokens others → trees ≡ others }
    ensures either { (tokens : List Token) (trees : List DeclTree) (rule : Rule) (left : ℕ) → IsAccepted tokens trees → IsRefused tokens rule left → ⊥ }
    ensures refused { (tokens : List Token) (rule other : Rule) (left last : ℕ)
        → IsRefused tokens rule left → IsRefused tokens other last → (rule ≡ other) × (left ≡ last) }
{}

/// The count of statements by tokens is that of the trees: no method of an accepted file has more than 4,096
/// statements, those in blocks among them.
pub fn accepted_methods_are_short()
    ensures { (tokens : List Token) (trees : List DeclTree) → IsAccepted tokens trees → AllByRecursion IsShortDecl trees }
{}
