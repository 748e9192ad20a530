//! Tests of what makes threads: reports of actors, sweeps, and workers over the concurrent cache, with gates that hold
//! their calls and see the order of them; and of jobs over a trace that is read and not kept, within small limits. Each
//! call is made once with ample memory.
#![tactic(auto)]

#[cfg(test)]
mod actors_tests;
#[cfg(test)]
mod assertions;
#[cfg(test)]
mod gates;
#[cfg(test)]
mod jobs;
#[cfg(test)]
mod long_traces_tests;
#[cfg(test)]
mod pieces;
#[cfg(test)]
mod queue_tests;
#[cfg(test)]
mod quiet_run_tests;
#[cfg(test)]
mod reading_tests;
#[cfg(test)]
mod sessions;
#[cfg(test)]
mod stopped_tests;
#[cfg(test)]
mod sweep_tests;
#[cfg(test)]
mod walks_tests;
#[cfg(test)]
mod workers_tests;
