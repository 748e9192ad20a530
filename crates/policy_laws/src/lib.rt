//! Belady's policy beside every other, larger capacities, scans, and other names of keys. No strategy of a capacity has
//! more hits than Belady's optimal policy, at any place of any trace, whether or not it knows the trace; so no other
//! policy has. A larger capacity is no worse for Belady's policy and for Lru, and segmented Lru loses no protected key
//! to a scan. Where each key of a trace gets a name of its own, a policy of queues without an admission filter has the
//! same outcomes by these names.
#![tactic(auto)]

pub mod optimality;
pub mod theorems;
