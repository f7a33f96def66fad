//! Room for items that come.
ghost use Rattle.std.specs.Prelude.{◌≡◌, ◌≤◌, ◌<◌, ◌+◌, ◌/◌, max, vec_len, vec_capacity, IsOk, OnOk, OnErr};

use std::alloc::AllocError;

/// How many items a list that has so many is opened with room for: an eighth more may come, but no
/// more than eight.
pub fn room_for(count: usize) -> usize
    ensures least { count ≤ result }
    ensures most { result ≤ count + 8 }
{
    count.saturating_add((count / 8).min(8))
}

/// Makes room for this many more items, where it is missing, and for an eighth of what there is
/// then: many that come one by one move the list a few times, and a list that one comes to takes
/// little more than it has.
pub fn reserve_room<T>(items: &mut Vec<T>, additional: usize) -> Result<(), AllocError>
    ensures ok { OnOk result (vec_len items.new + additional ≤ vec_capacity items.new) }
    ensures most { vec_capacity items.new ≤ max (vec_capacity items.old)
        (vec_len items.old + additional + (vec_len items.old + additional) / 8) }
    ensures err { OnErr result (vec_capacity items.new ≡ vec_capacity items.old) }
    ensures full { OnErr result (vec_capacity items.old < vec_len items.old + additional) }
    ensures succeeds { vec_len items.old + additional ≤ vec_capacity items.old → IsOk result }
    ensures items { items.new.items ≡ items.old.items }
    ensures len { vec_len items.new ≡ vec_len items.old }
    ensures room { vec_capacity items.old ≤ vec_capacity items.new }
{
    let len = items.len();
    if additional <= items.capacity() - len {
        return Ok(());
    }
    let eighth = additional.saturating_add(len) / 8;
    items.reserve_exact(additional.saturating_add(eighth))
}
