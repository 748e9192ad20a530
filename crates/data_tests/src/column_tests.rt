//! The columns of keys in a sketch, beside a calculator of its own.
use engine_base::{Key, Spread};
use sketch::column;

// Worked out from the rule by a calculator of its own, but for the plain columns of 21 and the mixed ones of 0 in
// 16 columns, which were worked out by hand.
const COLUMNS: [(Spread, u32, Key, [u32; 7]); 10] = [
    (Spread::Plain, 16, 21, [5, 6, 7, 8, 9, 10, 11]),
    (Spread::Plain, 16, u64::MAX, [15, 14, 13, 12, 11, 10, 9]),
    (Spread::Mixed, 16, 0, [15, 4, 15, 12, 11, 10, 1]),
    (Spread::Mixed, 16, 21, [7, 15, 15, 1, 9, 15, 6]),
    (
        Spread::Plain,
        1000,
        1 << 32,
        [296, 263, 230, 197, 164, 131, 98],
    ),
    (Spread::Mixed, 1000, 1, [465, 519, 590, 235, 761, 48, 45]),
    (
        Spread::Mixed,
        1 << 20,
        1 << 32,
        [131384, 441661, 142037, 765685, 195823, 785760, 590260],
    ),
    (
        Spread::Plain,
        1 << 23,
        u64::MAX,
        [
            8388607, 8388606, 8388605, 8388604, 8388603, 8388602, 8388601,
        ],
    ),
    (
        Spread::Mixed,
        1 << 23,
        21,
        [
            6825415, 8312255, 6211263, 3896769, 8339177, 7964303, 2235910,
        ],
    ),
    (
        Spread::Mixed,
        1 << 23,
        u64::MAX,
        [6630432, 7766729, 7504361, 2720466, 27054, 3717939, 540581],
    ),
];

#[test]
fn places_keys_in_columns(rt: HostRuntime) {
    for (spread, width, key, want) in COLUMNS {
        assert!(rt; 1 <= width && width <= 1 << 23);
        for row in 0..7u32 {
            assert_eq!(rt;
                column(spread, key, row, width),
                want[row as usize],
                "key {key}, row {row} of {width}"
            );
        }
    }
}
