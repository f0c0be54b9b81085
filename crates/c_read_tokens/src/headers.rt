// The three lines that each text begins with.

ghost use Rattle.std.specs.Prelude.{◌≡◌, ◌++◌, IfSome, IfNone, IfOk, IfErr};
ghost use Rattle.c_text.specs.CSpelling.{includes};
ghost use Rattle.c_read_grammar.specs.Outcomes.{stddef_line, stdint_line, string_line, IsBadHeader};
ghost use Rattle.c_read_tokens.specs.Headers.{LacksLine};

/// The first line.
fn stddef() -> &'static str
    ensures { result.now ≡ stddef_line }
{
    "#include <stddef.h>\n"
}

/// The second line.
fn stdint() -> &'static str
    ensures { result.now ≡ stdint_line }
{
    "#include <stdint.h>\n"
}

/// The third line.
fn string() -> &'static str
    ensures { result.now ≡ string_line }
{
    "#include <string.h>\n"
}

/// What stands after a line that the bytes begin with; none where they begin otherwise.
fn behind_line<'a>(line: &str, bytes: &'a [u8]) -> Option<&'a [u8]>
    ensures some { IfSome result (λ rest. bytes.now ≡ line.now ++ rest.now) }
    ensures none { IfNone result (LacksLine line.now bytes.now) }
{
    if bytes.starts_with(line.as_bytes()) {
        let (_, rest) = bytes.split_at(line.len());
        Some(rest)
    } else {
        None
    }
}

/// What stands after the three lines. Where one isn't there, its place.
#[tactic(auto, using(crate::proofs::HeaderLaws::all_there))]
pub fn behind_lines(bytes: &[u8]) -> Result<&[u8], usize>
    ensures body { IfOk result (λ body. bytes.now ≡ includes ++ body.now) }
    ensures bad { IfErr result (λ place. IsBadHeader bytes.now place) }
{
    match behind_line(stddef(), bytes) {
        Some(second) => match behind_line(stdint(), second) {
            Some(third) => match behind_line(string(), third) {
                Some(body) => Ok(body),
                None => Err(40),
            },
            None => Err(20),
        },
        None => Err(0),
    }
}
