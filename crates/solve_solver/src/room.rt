//! Pushes for which memory is there.

ghost use Rattle.std.specs.Prelude.{◌≡◌, ◌+◌, ◌<◌, ◌≤◌, [], ◌∷◌, ◌++◌, length, vec_len, vec_capacity};

/// Puts an item at the end of a list that has room for it, and so takes no memory.
pub fn push_within<X: Copy>(list: &mut Vec<X>, item: X)
    requires { vec_len list.old < vec_capacity list.old }
    ensures items { list.new.items ≡ list.old.items ++ item ∷ [] }
    ensures capacity { vec_capacity list.old ≤ vec_capacity list.new }
{
    match list.push(item) {
        Ok(()) => (),
        Err(_) => unreachable!(),
    }
}

/// Puts items at the end of a list that has room for them, and so takes no memory.
pub fn extend_within<X: Copy>(list: &mut Vec<X>, items: &[X])
    requires { vec_len list.old + length items.now ≤ vec_capacity list.old }
    ensures items { list.new.items ≡ list.old.items ++ items.now }
    ensures capacity { vec_capacity list.old ≤ vec_capacity list.new }
{
    match list.extend_from_slice(items) {
        Ok(()) => (),
        Err(_) => unreachable!(),
    }
}
