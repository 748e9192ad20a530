//! Lru, FIFO and CLOCK are conservative, so they compete with every strategy; the laws of reports. Their misses are
//! within a factor of those of any strategy, which may know the whole trace. No policy that does not know the trace
//! has a smaller factor. What this and `policy_laws` say of reports is one theorem, `reports_obey_laws`.
#![tactic(auto)]

pub mod theorems;
