// The words of C: those of the subset, and those that are no names of the subset.

ghost use Rattle.std.specs.Prelude.{◌≡◌, nat_eq, find};
ghost use Rattle.std.specs.Cmp.Lexicographic.{pointwise};
ghost use Rattle.c_text.specs.CSpelling.{word_bytes, is_reserved};
ghost use Rattle.c_read_grammar.specs.FirstToken.{word_of};
ghost use Rattle.c_read_tokens.specs.WordLists.{first_byte, words_from, reserved_bytes, reserved_from};

use crate::runs::first_byte;
use c_text::CWord;

/// How a word is written.
fn text_of_word(word: CWord) -> &'static str
    ensures { result.now ≡ word_bytes word }
{
    match word {
        CWord::Typedef => "typedef",
        CWord::Struct => "struct",
        CWord::Static => "static",
        CWord::Inline => "inline",
        CWord::Const => "const",
        CWord::Char => "char",
        CWord::Void => "void",
        CWord::Uint8 => "uint8_t",
        CWord::Uint16 => "uint16_t",
        CWord::Uint32 => "uint32_t",
        CWord::Uint64 => "uint64_t",
        CWord::SizeT => "size_t",
        CWord::Bool => "_Bool",
        CWord::Goto => "goto",
        CWord::If => "if",
        CWord::Else => "else",
        CWord::While => "while",
        CWord::Switch => "switch",
        CWord::Return => "return",
        CWord::Case => "case",
        CWord::Default => "default",
        CWord::Sizeof => "sizeof",
    }
}

/// The words of the subset that begin with this byte.
fn words_from(byte: u8) -> &'static [CWord]
    ensures { result.now ≡ words_from byte }
{
    match byte {
        b'_' => &[CWord::Bool],
        b'c' => &[CWord::Case, CWord::Char, CWord::Const],
        b'd' => &[CWord::Default],
        b'e' => &[CWord::Else],
        b'g' => &[CWord::Goto],
        b'i' => &[CWord::If, CWord::Inline],
        b'r' => &[CWord::Return],
        b's' => &[
            CWord::Sizeof,
            CWord::SizeT,
            CWord::Static,
            CWord::Struct,
            CWord::Switch,
        ],
        b't' => &[CWord::Typedef],
        b'u' => &[CWord::Uint8, CWord::Uint16, CWord::Uint32, CWord::Uint64],
        b'v' => &[CWord::Void],
        b'w' => &[CWord::While],
        _ => &[],
    }
}

/// The word that is written so, looked for among those that begin with the first byte.
fn find_word(text: &[u8]) -> Option<CWord>
    ensures { result ≡ find (λ word. pointwise nat_eq text.now (word_bytes word)) (words_from (first_byte text.now)) }
{
    words_from(first_byte(text))
        .iter()
        .copied()
        .find(|word| text == text_of_word(*word).as_bytes())
}

/// The word of the subset that is written so, if one is.
pub(crate) fn word_of(text: &[u8]) -> Option<CWord>
    ensures { result ≡ word_of text.now }
{
    find_word(text)
}

/// A keyword of C99, or a type name that the subset uses as a word.
#[derive(Clone, Copy, PartialEq, Eq)]
pub(crate) enum Reserved {
    Auto,
    Break,
    Case,
    Char,
    Const,
    Continue,
    Default,
    Do,
    Double,
    Else,
    Enum,
    Extern,
    Float,
    For,
    Goto,
    If,
    Inline,
    Int,
    Long,
    Register,
    Restrict,
    Return,
    Short,
    Signed,
    Sizeof,
    Static,
    Struct,
    Switch,
    Typedef,
    Union,
    Unsigned,
    Void,
    Volatile,
    While,
    Bool,
    Complex,
    Imaginary,
    Uint8,
    Uint16,
    Uint32,
    Uint64,
    SizeT,
}

/// How such a word is written.
fn text_of_reserved(word: Reserved) -> &'static str
    ensures { result.now ≡ reserved_bytes word }
{
    match word {
        Reserved::Auto => "auto",
        Reserved::Break => "break",
        Reserved::Case => "case",
        Reserved::Char => "char",
        Reserved::Const => "const",
        Reserved::Continue => "continue",
        Reserved::Default => "default",
        Reserved::Do => "do",
        Reserved::Double => "double",
        Reserved::Else => "else",
        Reserved::Enum => "enum",
        Reserved::Extern => "extern",
        Reserved::Float => "float",
        Reserved::For => "for",
        Reserved::Goto => "goto",
        Reserved::If => "if",
        Reserved::Inline => "inline",
        Reserved::Int => "int",
        Reserved::Long => "long",
        Reserved::Register => "register",
        Reserved::Restrict => "restrict",
        Reserved::Return => "return",
        Reserved::Short => "short",
        Reserved::Signed => "signed",
        Reserved::Sizeof => "sizeof",
        Reserved::Static => "static",
        Reserved::Struct => "struct",
        Reserved::Switch => "switch",
        Reserved::Typedef => "typedef",
        Reserved::Union => "union",
        Reserved::Unsigned => "unsigned",
        Reserved::Void => "void",
        Reserved::Volatile => "volatile",
        Reserved::While => "while",
        Reserved::Bool => "_Bool",
        Reserved::Complex => "_Complex",
        Reserved::Imaginary => "_Imaginary",
        Reserved::Uint8 => "uint8_t",
        Reserved::Uint16 => "uint16_t",
        Reserved::Uint32 => "uint32_t",
        Reserved::Uint64 => "uint64_t",
        Reserved::SizeT => "size_t",
    }
}

/// Those that begin with this byte.
fn reserved_from(byte: u8) -> &'static [Reserved]
    ensures { result.now ≡ reserved_from byte }
{
    match byte {
        b'_' => &[Reserved::Bool, Reserved::Complex, Reserved::Imaginary],
        b'a' => &[Reserved::Auto],
        b'b' => &[Reserved::Break],
        b'c' => &[
            Reserved::Case,
            Reserved::Char,
            Reserved::Const,
            Reserved::Continue,
        ],
        b'd' => &[Reserved::Default, Reserved::Do, Reserved::Double],
        b'e' => &[Reserved::Else, Reserved::Enum, Reserved::Extern],
        b'f' => &[Reserved::Float, Reserved::For],
        b'g' => &[Reserved::Goto],
        b'i' => &[Reserved::If, Reserved::Inline, Reserved::Int],
        b'l' => &[Reserved::Long],
        b'r' => &[Reserved::Register, Reserved::Restrict, Reserved::Return],
        b's' => &[
            Reserved::Short,
            Reserved::Signed,
            Reserved::Sizeof,
            Reserved::SizeT,
            Reserved::Static,
            Reserved::Struct,
            Reserved::Switch,
        ],
        b't' => &[Reserved::Typedef],
        b'u' => &[
            Reserved::Uint8,
            Reserved::Uint16,
            Reserved::Uint32,
            Reserved::Uint64,
            Reserved::Union,
            Reserved::Unsigned,
        ],
        b'v' => &[Reserved::Void, Reserved::Volatile],
        b'w' => &[Reserved::While],
        _ => &[],
    }
}

/// The one that is written so, looked for among those that begin with the first byte.
fn find_reserved(text: &[u8]) -> Option<Reserved>
    ensures { result ≡ find (λ word. pointwise nat_eq text.now (reserved_bytes word)) (reserved_from (first_byte text.now)) }
{
    reserved_from(first_byte(text))
        .iter()
        .copied()
        .find(|word| text == text_of_reserved(*word).as_bytes())
}

/// Whether no name is written so.
pub(crate) fn is_reserved(text: &[u8]) -> bool
    ensures { result ≡ is_reserved text.now }
{
    find_reserved(text).is_some()
}
