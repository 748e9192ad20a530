//! Tests of the debuggers: two policies over small traces, the journals of small sessions, and ends that fail.
#![tactic(auto)]

#[cfg(test)]
mod assertions;
#[cfg(test)]
mod ends_tests;
#[cfg(test)]
mod pipe;
#[cfg(test)]
mod policies_tests;
#[cfg(test)]
mod replay_tests;
