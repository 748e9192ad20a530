//! Both debuggers under one name. One is of two policies over one trace, the other of a concurrent cache's journal.
//! The promises stand with their functions.
#![tactic(auto)]

pub use debug_commands::run_replay;
pub use debug_policies::{DebugFault, run_debug};
pub use policy_comparison::{part, push_part};
