//! Tests of the data structures: each call that takes memory once, and small cases that were worked out by hand or by a
//! calculator of its own.
#![tactic(auto)]

#[cfg(test)]
mod adaptive_window_tests;
#[cfg(test)]
mod assertions;
#[cfg(test)]
mod bits_tests;
#[cfg(test)]
mod column_tests;
#[cfg(test)]
mod frequency_tests;
#[cfg(test)]
mod next_use_tests;
#[cfg(test)]
mod ranks_tests;
#[cfg(test)]
mod segments_tests;
#[cfg(test)]
mod shell_buffers_tests;
#[cfg(test)]
mod stack_distances_tests;
