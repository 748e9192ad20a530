//! For each access, where its key comes next and came before, and the number of its key; and how large a trace is.
//!
//! The crate promises that a [`NextUse`] gives the least later place of each access's key, and a [`PreviousUse`] the
//! greatest earlier one. Each is found in one pass over the trace, from its end and from its start, in which
//! [`KeyPlaces`] has for each key the place that was put for it last. [`TraceNumbers`] gives the keys numbers, in the
//! order in which they first come, no two the same.
//!
//! [`FootprintCounter`] counts accesses that come piece by piece, their distinct blocks, and the blocks that are
//! accessed once. It keeps a number for each block and nothing else of the accesses. What it has counted after some
//! accesses is what the definition gives for all of these.
#![tactic(auto)]

mod footprint;
mod footprint_counter;
mod key_cells;
mod key_numbers;
mod key_places;
mod next_use;
mod next_use_finder;
mod packed_keys;
mod previous_use;
mod room;
mod trace_numbers;

pub use footprint::Footprint;
pub use footprint_counter::FootprintCounter;
pub use key_places::KeyPlaces;
pub use next_use::NextUse;
pub use next_use_finder::NextUseFinder;
pub use previous_use::PreviousUse;
pub use trace_numbers::{Number, TraceNumbers};
