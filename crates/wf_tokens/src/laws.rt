// Laws of token spelling. Each is a function without a body whose contract is the law.

ghost use Rattle.wf_tokens.specs.Pieces.{PiecesAreLongest};
ghost use Rattle.wf_tokens.specs.Spelling.{TokensAreUnique, RefusalsAreUnique, NeverBoth};

/// Each piece is the longest that can stand at its place: no longer front of the bytes there spells a token.
pub fn pieces_are_longest()
    ensures { PiecesAreLongest }
{}

/// Bytes have at most one list of tokens, are refused in at most one way, and never both.
pub fn one_spelling()
    ensures tokens { TokensAreUnique }
    ensures refusals { RefusalsAreUnique }
    ensures never_both { NeverBoth }
{}
