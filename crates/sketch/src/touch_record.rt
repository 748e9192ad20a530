//! The undo record of a touch.
ghost use Rattle.std.specs.Prelude.{◌≡◌, ◌<◌};
ghost use Rattle.sketch.specs.TouchRecord.{rose, has_risen};

use engine_base::Key;

/// Which of a key's four counters a touch raised: all that it takes to undo it. It holds no list.
#[derive(Clone, Copy)]
pub struct TouchRecord {
    /// The key.
    pub key: Key,
    /// Where its counters rose.
    pub rose: RaisedRows,
}

/// A flag for each row of a sketch: whether the key's counter there rose.
#[derive(Clone, Copy)]
pub struct RaisedRows {
    pub row_0: bool,
    pub row_1: bool,
    pub row_2: bool,
    pub row_3: bool,
}

impl TouchRecord {
    /// Whether a counter rose.
    #[inline(always)]
    pub fn has_risen(&self) -> bool
        ensures { result ≡ has_risen self.now }
    {
        let RaisedRows {
            row_0,
            row_1,
            row_2,
            row_3,
        } = self.rose;
        row_0 || row_1 || row_2 || row_3
    }

    // Whether the key's counter in a row rose.
    #[inline(always)]
    pub(crate) fn rose_in(&self, row: u32) -> bool
        requires { row < 4 }
        ensures { result ≡ rose self.now row }
    {
        let rows = [
            self.rose.row_0,
            self.rose.row_1,
            self.rose.row_2,
            self.rose.row_3,
        ];
        rows[row as usize]
    }
}
