//! A run and its undoing, what records hold. A caller of several crates sees these theorems: what a run on threads
//! leaves and what undoing it gives, and what the undo records of a session hold.
#![tactic(auto)]

mod held_words;
mod undone_run;

pub use held_words::words_held;
pub use undone_run::{Rewound, drive_and_undo};
