// The laws of what is read: it is as the grammar gives, its statements stand in order of place, and its declarations are
// few. Each is the contract of a function that does nothing.

ghost use Rattle.wf_parse.specs.ReadForms.{TokensAreFormed, FormsAreWellFormed, PackagesAreWellFormed, TokensRise, ReadingRises, DeclsAreFew, ParsedIsRead};

/// The grammar gives well formed declarations: what a file spells are formed tokens, of which it makes them, and so all
/// declarations of a package that is read.
pub fn the_grammar_gives_well_formed_declarations()
    ensures tokens { TokensAreFormed }
    ensures forms { FormsAreWellFormed }
    ensures packages { PackagesAreWellFormed }
{}

/// Each token of a file stands before those that follow it.
pub fn tokens_stand_in_order()
    ensures { TokensRise }
{}

/// The statements of a package that is read stand in order of place in its parsed tree, those that declare locals too.
pub fn statements_are_read_in_order()
    ensures { ReadingRises }
{}

/// A package that is read has at most 65,536 declarations: of its at most 262,144 tokens each takes four or more.
pub fn declarations_are_few()
    ensures { DeclsAreFew }
{}

/// So all holds of what is read that a package of wf_ast keeps.
pub fn what_is_read_is_a_package()
    ensures { ParsedIsRead }
{}
