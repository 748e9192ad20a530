//! The policies that keep each missed key, each in a module of its own: its definition over plain lists, its plan of moves,
//! and the step that carries the plan out. A policy is one value, its page (`PolicyPage`), and what has to be known of it is
//! one record (`IsSoundPage`).
//!
//! Pages share words of their definitions and parts of their plans and of their steps (`accesses`, `missed_key`).
#![tactic(auto)]

pub mod accesses;
pub mod arc;
pub mod car;
pub mod clock;
pub mod fifo;
pub mod missed_key;
pub mod s3_fifo;
pub mod sieve;
pub mod two_q;
