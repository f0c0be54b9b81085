// Names that no declaration may give.

ghost use Rattle.std.specs.Prelude.{◌≡◌, bytes_eq};
ghost use Rattle.std.specs.List.{list_any};
ghost use Rattle.wf_names_rules.specs.Reserved.{is_underscore as underscores, begins_with_underscore, ends_with_underscore, has_double_underscore, kept_words, is_reserved as reserves, is_initialize as initializes};

const KEPT_WORDS: [&str; 10] = [
    "choose",
    "choosy",
    "implements",
    "io_bind",
    "io_limit",
    "iterate",
    "nptr",
    "ptr",
    "table",
    "use",
];

fn is_underscore(byte: u8) -> bool
    ensures { result ≡ underscores byte }
{
    byte == b'_'
}

fn begins(name: &[u8]) -> bool
    ensures { result ≡ begins_with_underscore name.now }
{
    match name.first() {
        Some(byte) => is_underscore(*byte),
        None => false,
    }
}

/// Whether nothing may be declared under this name: it begins or ends with `_`, has two in a row, or is a word
/// that the language keeps.
#[tactic(auto, unfolding(crate::specs::Reserved::is_reserved))]
pub(crate) fn is_reserved(name: &[u8]) -> bool
    ensures { result ≡ reserves name.now }
{
    begins(name) || ends(name) || has_double(name) || is_kept(name)
}

fn ends(name: &[u8]) -> bool
    ensures { result ≡ ends_with_underscore name.now }
{
    let mut last = false;
    for byte in name {
        last = is_underscore(*byte);
    }
    last
}

fn has_double(name: &[u8]) -> bool
    ensures { result ≡ has_double_underscore name.now }
{
    let mut behind = false;
    for byte in name {
        let here = is_underscore(*byte);
        if behind && here {
            return true;
        }
        behind = here;
    }
    false
}

fn is_kept(name: &[u8]) -> bool
    ensures { result ≡ list_any (λ word. bytes_eq word name.now) kept_words }
{
    is_among(&KEPT_WORDS, name)
}

fn is_among(words: &[&str], name: &[u8]) -> bool
    ensures { result ≡ list_any (λ word. bytes_eq word.now name.now) words.now }
{
    words.iter().any(|word| word.as_bytes() == name)
}

/// Whether it is the name that every struct's own method for its start has.
pub(crate) fn is_initialize(name: &[u8]) -> bool
    ensures { result ≡ initializes name.now }
{
    name == b"initialize".as_slice()
}
