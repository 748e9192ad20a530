//! The keys of a trace, in 4 bytes each where they fit.
ghost use Rattle.std.specs.Prelude.{◌≡◌, ◌<◌, ◌≤◌, ◌+◌, ◌++◌, [], IfOk, OnOk, length, slice_index, take};
ghost use Rattle.std.specs.Vec.{vec_len, vec_capacity};
ghost use Rattle.trace_index.specs.PackedKeys.{unpacked};

use crate::room::make_room;
use engine_base::Key;
use std::alloc::{AllocError, Global};

/// The keys of a trace's accesses, in order: in 4 bytes each while all of them fit, as the numbers
/// of blocks mostly do, else in 8.
pub(crate) enum PackedKeys {
    Short(Vec<u32>),
    Long(Vec<Key>),
}

impl Drop for PackedKeys {
    fn drop(self) {
        match self {
            PackedKeys::Short(_) => {}
            PackedKeys::Long(_) => {}
        }
    }
}

impl PackedKeys {
    /// No keys yet.
    pub(crate) fn new(alloc: Global) -> PackedKeys
        ensures { unpacked result ≡ [] }
    {
        PackedKeys::Short(Vec::new(alloc))
    }

    /// These keys and more. The only error is out of memory.
    pub(crate) fn with(self, more: &[Key]) -> Result<PackedKeys, AllocError>
        ensures { IfOk result (λ p. unpacked p ≡ unpacked self ++ more.now) }
    {
        match self {
            PackedKeys::Short(short) => short_with(short, more),
            PackedKeys::Long(long) => long_with(long, more),
        }
    }

    /// How many keys there are.
    pub(crate) fn len(&self) -> usize
        ensures { result ≡ length (unpacked self.now) }
    {
        match self {
            PackedKeys::Short(short) => short.len(),
            PackedKeys::Long(long) => long.len(),
        }
    }

    /// The key at a place.
    pub(crate) fn get(&self, place: usize) -> Key
        requires { place < length (unpacked self.now) }
        ensures { result ≡ slice_index (unpacked self.now) place }
    {
        match self {
            PackedKeys::Short(short) => short[place] as Key,
            PackedKeys::Long(long) => long[place],
        }
    }
}

// Short keys and more, all of them in 8 bytes each where one does not fit in 4.
fn short_with(mut short: Vec<u32>, more: &[Key]) -> Result<PackedKeys, AllocError>
    ensures { IfOk result (λ p. unpacked p ≡ short.items ++ more.now) }
{
    make_room(&mut short, more.len())?;
    let (fitting, short) = with_fitting(short, more);
    if fitting == more.len() {
        return Ok(PackedKeys::Short(short));
    }
    let long = widened(&short)?;
    long_with(long, &more[fitting..])
}

// Long keys and more.
fn long_with(mut long: Vec<Key>, more: &[Key]) -> Result<PackedKeys, AllocError>
    ensures { IfOk result (λ p. unpacked p ≡ long.items ++ more.now) }
{
    make_room(&mut long, more.len())?;
    long.extend_from_slice(more)?;
    Ok(PackedKeys::Long(long))
}

// Short keys and those of others up to the first that does not fit in 4 bytes, and how many these are. The list is a
// local, so that the loop has its length in a register.
fn with_fitting(short: Vec<u32>, more: &[Key]) -> (usize, Vec<u32>)
    requires { vec_len short + length more.now ≤ vec_capacity short }
    ensures within { result.0 ≤ length more.now }
    ensures items { result.1.items ≡ short.items ++ take result.0 more.now }
{
    let mut list = short;
    for i in 0..more.len() {
        if more[i] > u32::MAX as Key {
            return (i, list);
        }
        list.push_reserved(more[i] as u32);
    }
    (more.len(), list)
}

// The keys in 8 bytes each.
fn widened(short: &Vec<u32>) -> Result<Vec<Key>, AllocError>
    ensures { IfOk result (λ long. long.items ≡ short.now.items) }
{
    let mut long = Vec::with_capacity(*short.allocator(), short.len())?;
    for key in short {
        long.push(*key as Key)?;
    }
    Ok(long)
}
