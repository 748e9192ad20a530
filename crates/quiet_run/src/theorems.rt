//! Theorems on quiet runs. Their functions do nothing: their contracts are the theorems.
ghost use Rattle.quiet_run.specs.Nodes.{AccessesAgree};
ghost use Rattle.quiet_run.specs.QuietRuns.{KeysAgree};

/// Nodes aside, the policies' table of moves goes by keys alone: where each key has one item, an access over the keys
/// has the outcome of the one over the items, and leaves the same keys in the same order.
pub fn accesses_agree()
    ensures { AccessesAgree }
{}

/// An access by one worker with a round of maintenance after it is one access of W-TinyLFU: where nothing is under way
/// in the concurrent cache and it holds what a cache of the policy holds, the walk of a key comes to the policy's
/// outcome, and then it holds what the policy's holds, with nothing under way.
pub fn keys_agree()
    ensures { KeysAgree }
{}
