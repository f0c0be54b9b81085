// Numbers and bytes as text: decimal digits and hexadecimal digits.

ghost use Rattle.std.specs.Prelude.{◌≡◌, ◌≤◌, ◌*◌, ◌++◌, length, decimal, drop};
ghost use Rattle.hex.specs.Hex.{encode_lower};

/// Writes the decimal digits of `n`, without leading zeros, at the front of `into`, and answers how many
/// they are (1 to 20). The bytes after them stay.
pub fn number_text(n: u64, into: &mut [u8; 20]) -> usize
    ensures count { result ≡ length (decimal n) }
    ensures digits { into.new ≡ decimal n ++ drop (length (decimal n)) into.old }
{
    let mut buffer = itoa::Buffer::new();
    let text = buffer.format(n).as_bytes();
    into[..text.len()].copy_from_slice(text);
    text.len()
}

/// Writes `bytes` as lower-case hexadecimal digits, two a byte, at the front of `into`, and answers how many bytes of `into`
/// these are. The bytes after them stay.
pub fn hex_text(bytes: &[u8], into: &mut [u8]) -> usize
    requires room { 2 * length bytes.now ≤ length into.old }
    ensures count { result ≡ 2 * length bytes.now }
    ensures digits { into.new ≡ encode_lower bytes.now ++ drop (2 * length bytes.now) into.old }
{
    let count = 2 * bytes.len();
    let (front, _) = into.split_at_mut(count);
    let _written = hex::encode_to_slice(bytes, front);
    count
}
