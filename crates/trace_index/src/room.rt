//! Room in a list that grows.
ghost use Rattle.std.specs.Prelude.{◌≡◌, ◌+◌, ◌≤◌, OnOk};
ghost use Rattle.std.specs.Vec.{vec_len, vec_capacity};

use std::alloc::AllocError;

// Makes room for so many more elements. A list that has to grow becomes longer by a fourth or more, so that it grows few
// times, and yet holds little more memory than it needs.
pub(crate) fn make_room<T>(list: &mut Vec<T>, more: usize) -> Result<(), AllocError>
    ensures items { list.new.items ≡ list.old.items }
    ensures room { OnOk result (vec_len list.new + more ≤ vec_capacity list.new) }
{
    if list.capacity() - list.len() >= more {
        return Ok(());
    }
    list.reserve_exact(more.max(list.len() / 4))
}
