// Objects that are kept for calls.

ghost use Rattle.std.specs.Prelude.{◌≡◌, ◌+◌, ◌<◌, ◌≤◌, ◌∷◌, [], ◌++◌, length, vec_capacity};

use c_mem::Object;

/// Takes an object; there is one.
pub(crate) fn take_spare(spares: &mut Vec<Object>) -> Object
    requires { 0 < length spares.old.items }
    ensures spares { spares.old.items ≡ spares.new.items ++ result ∷ [] }
    ensures room { vec_capacity spares.new ≡ vec_capacity spares.old }
{
    match spares.pop() {
        Some(object) => object,
        None => unreachable!(),
    }
}

/// Keeps an object; there is room for it.
pub(crate) fn keep_spare(spares: &mut Vec<Object>, object: Object)
    requires { length spares.old.items < vec_capacity spares.old }
    ensures spares { spares.new.items ≡ spares.old.items ++ object ∷ [] }
    ensures room { vec_capacity spares.old ≤ vec_capacity spares.new }
{
    let _ = spares.push(object);
}
