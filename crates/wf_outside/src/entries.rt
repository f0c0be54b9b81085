// Look-ups in the lists that inputs and sinks in memory are made of. The first entry that fits counts.

ghost use Rattle.std.specs.Prelude.{◌≡◌, ◌+◌, ◌≤◌, map, nat_eq, string_bytes, take};
ghost use Rattle.std.specs.Option.{option_map};
ghost use Rattle.std.specs.List.{list_any};
ghost use Rattle.wf_outside.specs.InMemory.{bytes_under, gone_at};

/// The bytes that stand under `name`.
pub(crate) fn find_bytes<'a>(held: &'a [(String, Vec<u8>)], name: &str) -> Option<&'a [u8]>
    ensures { option_map (λ bytes. bytes.now) result
        ≡ bytes_under (map (λ entry. (string_bytes entry.0, entry.1.items)) held.now) name.now }
{
    for entry in held {
        if entry.0.as_str() == name {
            return Some(entry.1.as_slice());
        }
    }
    None
}

/// Whether `call` is one of `calls`.
pub(crate) fn is_listed(calls: &[u64], call: u64) -> bool
    ensures { result ≡ list_any (λ listed. nat_eq listed call) calls.now }
{
    calls.iter().any(|listed| *listed == call)
}

/// The bytes gone that are listed for `call`.
pub(crate) fn find_gone(failing: &[(u64, usize)], call: u64) -> Option<usize>
    ensures { result ≡ gone_at failing.now call }
{
    for entry in failing {
        if entry.0 == call {
            return Some(entry.1);
        }
    }
    None
}

/// The bytes themselves where they are at most `most`, else their first `most + 1`.
pub(crate) fn front_of(bytes: &[u8], most: u64) -> &[u8]
    requires { most ≤ 1048576 }
    ensures { result.now ≡ take (most + 1) bytes.now }
{
    let count = bytes.len().min(most as usize + 1);
    let (front, _) = bytes.split_at(count);
    front
}
