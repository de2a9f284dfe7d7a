//! Lists with room.

ghost use Rattle.std.specs.Prelude.{◌≡◌, ◌+◌, ◌<◌, ◌≤◌, [], ◌∷◌, ◌++◌, vec_len, vec_capacity};

/// Puts an item behind the others. Condition: there is room for it. So it takes no memory.
pub(crate) fn put<T: Drop>(list: &mut Vec<T>, item: T)
    requires { vec_len list.old < vec_capacity list.old }
    ensures items { list.new.items ≡ list.old.items ++ item ∷ [] }
    ensures len { vec_len list.new ≡ vec_len list.old + 1 }
    ensures capacity { vec_capacity list.old ≤ vec_capacity list.new }
{
    let Ok(()) = list.push(item) else {
        unreachable!()
    };
}

/// Puts these behind the others. Condition: there is room for them. So it takes no memory.
pub(crate) fn put_all<T: Drop>(list: &mut Vec<T>, more: Vec<T>)
    requires { vec_len list.old + vec_len more ≤ vec_capacity list.old }
    ensures { list.new.items ≡ list.old.items ++ more.items }
{
    let mut more = more;
    let Ok(()) = list.append(&mut more) else {
        unreachable!()
    };
}
