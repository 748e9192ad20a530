//! Tests of sessions over the concurrent cache: journals that are read, undone, redone and written, and calls at both
//! ends of their ranges.
#![tactic(auto)]

#[cfg(test)]
mod assertions;
#[cfg(test)]
mod buffer_tests;
#[cfg(test)]
mod copy_tests;
#[cfg(test)]
mod journal_tests;
#[cfg(test)]
mod range_tests;
#[cfg(test)]
mod sessions;
