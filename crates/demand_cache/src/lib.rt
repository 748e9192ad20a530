//! The policies that keep each missed key as one engine. Which there are, and with what sizes of their parts, is one table
//! (`DemandPolicy`).
//!
//! Each is a plan of moves over the same queues. What they share stands here once: counts, the limit of steps, and
//! undoing.
#![tactic(auto)]

mod demand_cache;
mod demand_policy;
mod narrow_cache;
pub mod theorems;

pub use demand_cache::{DemandCache, DemandRecord};
pub use demand_policy::DemandPolicy;
pub use narrow_cache::NarrowCache;
