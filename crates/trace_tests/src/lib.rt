//! Tests of reads and writes piece by piece, of reading traces, of samples, and of the line of progress. They stand in a
//! crate of their own so that the gate, and a first call of the program, prove what they test once.
#![tactic(auto)]

#[cfg(test)]
mod assertions;
#[cfg(test)]
mod progress_tests;
#[cfg(test)]
mod streams_tests;
#[cfg(test)]
mod trace_read_tests;
#[cfg(test)]
mod trace_sample_tests;
