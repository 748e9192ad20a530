//! Bits in words, 64 to a word.
ghost use Rattle.std.specs.Prelude.{◌≡◌, ◌<◌, ◌*◌, ◌==◌, ◌&&◌, ◌||◌, not, length, ℕ};
ghost use Rattle.engine_base.specs.Bits.{bit_of};

/// Whether the bit at a place is set.
#[inline(always)]
pub fn get(words: &[u64], at: usize) -> bool
    requires { at < 64 * length words.now }
    ensures { result ≡ bit_of words.now at }
{
    (words[at / 64] >> (at % 64)) & 1 == 1
}

/// Sets the bit at a place.
#[inline(always)]
pub fn set(words: &mut [u64], at: usize)
    requires { at < 64 * length words.old }
    ensures { (i : ℕ) → bit_of words.new i ≡ (bit_of words.old i || at == i) }
{
    words[at / 64] |= 1 << (at % 64);
}

/// Clears the bit at a place, if `was` is true.
#[inline(always)]
pub fn clear(words: &mut [u64], at: usize, was: bool)
    requires { at < 64 * length words.old }
    ensures { (i : ℕ) → bit_of words.new i ≡ (bit_of words.old i && not (was && at == i)) }
{
    if was {
        words[at / 64] &= !(1 << (at % 64));
    }
}
