//! Tests of the theorems over several crates and of the programs of `library_examples`, each called once with ample
//! memory.
#![tactic(auto)]

#[cfg(test)]
mod assertions;
#[cfg(test)]
mod jobs;
#[cfg(test)]
mod log_tests;
#[cfg(test)]
mod policy_tests;
#[cfg(test)]
mod run_tests;
