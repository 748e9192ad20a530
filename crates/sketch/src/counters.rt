//! Sixteen counters in a word.
ghost use Rattle.std.specs.Prelude.{◌≡◌, ◌≢◌, ◌<◌, ◌≤◌, ◌+◌, ◌-◌, ◌*◌, ◌/◌, length, ℕ, min, cond, true};
ghost use Rattle.sketch.specs.Counters.{counter_at};

/// The counter at a place.
pub fn get(words: &[u64], at: usize) -> u32
    requires { at < 16 * length words.now }
    ensures value { result ≡ counter_at words.now at }
    ensures small { result ≤ 15 }
{
    let word = words[at / 16];
    ((word >> (4 * (at % 16))) & 15) as u32
}

/// Raises the counter at a place, unless it is 15, and returns what it was.
pub fn raise(words: &mut [u64], at: usize) -> u32
    requires { at < 16 * length words.old }
    ensures was { result ≡ counter_at words.old at }
    ensures here { counter_at words.new at ≡ min 15 (counter_at words.old at + 1) }
    ensures same { (i : ℕ) → i ≢ at → counter_at words.new i ≡ counter_at words.old i }
{
    let word = words[at / 16];
    let shift = 4 * (at % 16);
    let was = ((word >> shift) & 15) as u32;
    let below = was < 15;
    words[at / 16] = if below { word + (1 << shift) } else { word };
    was
}

/// Lowers the counter at a place, where it rose.
pub fn lower(words: &mut [u64], at: usize, rose: bool)
    requires within { at < 16 * length words.old }
    requires some { rose ≡ true → 0 < counter_at words.old at }
    ensures here { counter_at words.new at ≡ cond rose (counter_at words.old at - 1) (counter_at words.old at) }
    ensures same { (i : ℕ) → i ≢ at → counter_at words.new i ≡ counter_at words.old i }
{
    if rose {
        words[at / 16] -= 1 << (4 * (at % 16));
    }
}
