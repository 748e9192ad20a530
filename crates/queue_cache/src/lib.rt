//! The policies of queues as one engine: LRU and segmented LRU, each also behind the TinyLFU admission filter, and
//! W-TinyLFU; and Lru over a trace without a cache. What a policy goes by is a value (`QueueDesign`).
//!
//! The engine's steps are accesses. Each policy promises that for every list of accesses that it made, an access
//! answers the outcome that the policy's definition gives after the whole list, and leaves the cache with that access
//! at the list's end; and that each access can be undone from its record and what the cache shows. The definition is
//! the table of moves of the crate `replacement`, one access after another (`specs/QueueCache.antt`); that of Lru is
//! also the last distinct keys (`specs/Lru.antt`). The promises stand as the theorems below, over the steps alone, so
//! that they reach callers that see a cache through a session.
//!
//! With an adaptive window ([`AdaptiveCache`]) the size of W-TinyLFU's window follows the hits, as in Caffeine: a hill
//! climber (the one of Caffeine's BoundedLocalCache, in whole numbers) says how large the window is to be, and the window
//! goes there at once, by 1,000 entries in an access at most. Each access is that of a fixed window of the size in force
//! (`specs/AdaptiveWindow.antt`). The rules of the climber are a parameter of what `adaptive_theorems` says.
//!
//! Without a cache Lru takes one pass over a trace for all capacities, by stack distances (Mattson, Gecsei, Slutz and
//! Traiger, "Evaluation techniques for storage hierarchies", 1970): a cache of capacity c holds the c keys that were accessed
//! last, so a larger cache holds what a smaller one does, and each access has one number, its stack distance, that decides at
//! every capacity whether it is a hit: how many distinct keys were accessed since the last access to its key, that key
//! included. A [`Curve`] is a histogram of the distances, with running sums, which has the hits at each capacity.
//!
//! At a few capacities a pass for each is shorter: Lru holds the keys of a window of the trace that ends at the latest
//! access, and begins further on where a miss finds it full. With the place of each key's last access found once
//! ([`Reuses`]), such a pass looks no key up, and writes a bit for each hit.
//!
//! A curve and the reuses of a trace give, at each capacity, the statistics that the definition of Lru gives over that trace.
//! Making either asks for memory, and so does a pass over the reuses: a bit for each access.
#![tactic(auto)]

mod adaptive_cache;
pub mod adaptive_theorems;
mod adaptive_window;
mod climber;
mod curve;
mod design;
pub mod distance_theorems;
mod fenwick_tree;
pub mod fixed_design;
mod histogram;
mod limits;
mod lru;
mod marks;
mod queue_cache;
mod record;
mod resizing;
mod reuses;
mod segmented_lru;
pub mod theorems;
mod tiny_lfu;
mod window;
mod window_record;
mod window_tiny_lfu;

pub use adaptive_cache::{AdaptiveCache, AdaptiveRecord, COLUMNS};
pub use adaptive_window::AdaptiveWindow;
pub use climber::{ClimbRules, Climber};
pub use curve::Curve;
pub use design::{Layout, QueueDesign, QueueSetup};
pub use lru::{Lru, LruMark};
pub use queue_cache::{AnyDesign, QueueCache};
pub use record::AccessRecord;
pub use resizing::MAX_SIZE_CHANGE;
pub use reuses::Reuses;
pub use segmented_lru::{SegmentedLru, SegmentedLruMark};
pub use tiny_lfu::{TinyLfu, TinyLfuMark};
pub use window_record::{SizeChange, WindowRecord};
pub use window_tiny_lfu::{WindowTinyLfu, WindowTinyLfuMark};
