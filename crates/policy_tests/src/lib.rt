//! Tests of the policies: worked examples, with each access undone once, and a session that goes back across a halving;
//! each policy of queues opened by its own constructor; reports as text, and the displayed texts of faults: of streams,
//! traces, jobs, sessions and quiet runs.
#![tactic(auto)]

#[cfg(test)]
mod assertions;
#[cfg(test)]
mod example_tests;
#[cfg(test)]
mod fault_tests;
#[cfg(test)]
mod opening_tests;
#[cfg(test)]
mod report_tests;
#[cfg(test)]
mod session_tests;
