//! The concurrent cache as an engine. The cache (Caffeine's Design page) has a table that callers read and write, read
//! buffers and a write queue, and a maintenance that one worker at a time does for all. It is an engine over steps:
//! every step's reply and state are those of the definition in `shell_model`, and every step is undone from its record.
#![tactic(auto)]

mod client_acts;
mod node_table;
mod round_acts;
mod shell;
mod shell_core;
mod undo;

pub use shell::Shell;
