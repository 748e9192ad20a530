//! A key's counter in each row of a table, over the words that hold the rows one after another.
ghost use Rattle.std.specs.Prelude.{◌≡◌, ◌<◌, ◌≤◌, ◌+◌, ◌-◌, ◌*◌, ◌/◌, ◌%◌, ◌==◌, ◌&&◌, cond, nat_lt, min, true};
ghost use Rattle.std.specs.Prelude.{length, slice_index, ℕ};
ghost use Rattle.sketch.specs.declared.columns.TheConstants.{MAX_WIDTH};
ghost use Rattle.sketch.specs.Counters.{counter_at};
ghost use Rattle.sketch.specs.Columns.{column as column_of};
ghost use Rattle.engine_base.specs.Places.{by_place};
ghost use Rattle.sketch.specs.Sketch.{is_of};
ghost use Rattle.sketch.specs.TouchRecord.{rose as rose_of};

use crate::columns::column;
use crate::counters::{lower, raise};
use crate::touch_record::TouchRecord;
use engine_base::{Key, Spread};

/// Raises the counter at a column of each row, and returns what the four were.
pub fn raise_rows(words: &mut [u64], width: u32, columns: [u32; 4]) -> [u32; 4]
    requires low { 1 ≤ width }
    requires high { width ≤ MAX_WIDTH }
    requires whole { width ≡ 4 * length words.old }
    requires below { (row : ℕ) → row < 4 → slice_index columns row < width }
    ensures counters { (i : ℕ) → counter_at words.new i
        ≡ cond (nat_lt (i / width) 4 && slice_index columns (i / width) == i % width)
        (min 15 (counter_at words.old i + 1)) (counter_at words.old i) }
    ensures were { result ≡ by_place 4 (λ row. counter_at words.old (row * width + slice_index columns row)) }
{
    let mut were = [0; 4];
    for row in 0..4u32 {
        let at = row * width + columns[row as usize];
        were[row as usize] = raise(words, at as usize);
    }
    were
}

/// Lowers the key's counter in each row where the touch raised it.
pub fn lower_rows(words: &mut [u64], width: u32, spread: Spread, done: &TouchRecord)
    requires low { 1 ≤ width }
    requires high { width ≤ MAX_WIDTH }
    requires whole { width ≡ 4 * length words.old }
    requires some { (row : ℕ) → row < 4 → rose_of done.now row ≡ true
        → 0 < counter_at words.old (row * width + column_of spread done.now.key row width) }
    ensures { (i : ℕ) → counter_at words.new i
        ≡ cond (nat_lt (i / width) 4 && is_of spread width done.now.key i)
        (cond (rose_of done.now (i / width)) (counter_at words.old i - 1) (counter_at words.old i))
        (counter_at words.old i) }
{
    for row in 0..4u32 {
        let at = row * width + column(spread, done.key, row, width);
        let rose = done.rose_in(row);
        lower(words, at as usize, rose);
    }
}
