//! Where a key counts.
ghost use Rattle.std.specs.Prelude.{◌≡◌, ◌<◌, ◌≤◌, ◌+◌, ◌*◌, ◌^◌, slice_index, ℕ};
ghost use Rattle.std.specs.Int.{IsPowerOfTwo};
ghost use Rattle.sketch.specs.Columns.{column as column_of, mix as mix_of, wrap};
ghost use Rattle.engine_base.specs.Places.{by_place};

use engine_base::{Key, MAX_CAPACITY, Spread};

/// The most columns of a row: four for each entry of the largest cache.
pub const MAX_WIDTH: u32 = 4 * MAX_CAPACITY;

/// The column of a key in a row, of 1 to 2^23 columns. A sketch has the rows 0 to 3; the rows 4 to 6 are there for
/// the probes of a doorkeeper.
///
/// The mixed spread mixes the key and its row by the finalizer of SplitMix64; the plain one takes the key's remainder
/// and steps on by the remainder of its quotient.
pub fn column(spread: Spread, key: Key, row: u32, width: u32) -> u32
    requires row { row < 7 }
    requires some { 1 ≤ width }
    requires few { width ≤ 2 ^ 23 }
    ensures value { result ≡ column_of spread key row width }
    ensures below { result < width }
{
    if width.is_power_of_two() {
        masked(spread, key, row, width)
    } else {
        column_by_division(spread, key, row, width)
    }
}

/// A key's columns in the rows 0 to 3, where the width is a power of two.
pub fn columns(spread: Spread, key: Key, width: u32) -> [u32; 4]
    requires power { IsPowerOfTwo width }
    requires few { width ≤ 2 ^ 23 }
    ensures value { result ≡ by_place 4 (λ row. column_of spread key row width) }
    ensures below { (row : ℕ) → row < 4 → slice_index result row < width }
{
    [
        masked(spread, key, 0, width),
        masked(spread, key, 1, width),
        masked(spread, key, 2, width),
        masked(spread, key, 3, width),
    ]
}

/// Spreads a number over 64 bits: the finalizer of SplitMix64.
#[inline(always)]
#[tactic(auto, unfolding(crate::specs::Columns::mix))]
pub fn mix(z: u64) -> u64
    ensures { result ≡ mix_of z }
{
    let a = (z ^ (z >> 30)).wrapping_mul(0xBF58476D1CE4E5B9);
    let b = (a ^ (a >> 27)).wrapping_mul(0x94D049BB133111EB);
    b ^ (b >> 31)
}

// A key and its row, mixed.
fn mixed(key: Key, row: u32) -> u64
    requires { row < 7 }
    ensures { result ≡ mix_of (wrap (key + wrap ((row + 1) * 0x9E3779B97F4A7C15))) }
{
    let step = (row as u64 + 1).wrapping_mul(0x9E3779B97F4A7C15);
    mix(key.wrapping_add(step))
}

// The column where the width is a power of two, as every table's is: by masks and a shift.
fn masked(spread: Spread, key: Key, row: u32, width: u32) -> u32
    requires row { row < 7 }
    requires power { IsPowerOfTwo width }
    requires few { width ≤ 2 ^ 23 }
    ensures { result ≡ column_of spread key row width }
{
    let mask = (width - 1) as u64;
    let at = match spread {
        Spread::Mixed => mixed(key, row),
        Spread::Plain => (key & mask) + row as u64 * ((key >> width.trailing_zeros()) & mask),
    };
    (at & mask) as u32
}

// The column by division, of any width.
#[cold]
fn column_by_division(spread: Spread, key: Key, row: u32, width: u32) -> u32
    requires row { row < 7 }
    requires some { 1 ≤ width }
    requires few { width ≤ 2 ^ 23 }
    ensures { result ≡ column_of spread key row width }
{
    let width = width as u64;
    let at = match spread {
        Spread::Mixed => mixed(key, row) % width,
        Spread::Plain => (key % width + row as u64 * (key / width % width)) % width,
    };
    at as u32
}
