//! What a shell counts.
ghost use Rattle.std.specs.Prelude.{◌≡◌, ◌+◌, ◌-◌, ◌≤◌};
ghost use Rattle.engine_base.specs.declared.limits.TheConstants.{MAX_STEPS};
ghost use Rattle.shell_model.specs.ShellStats.{counted_of, shell_stats_with, AllCounts};

use engine_base::Reply;

/// How often each kind of reply was given by the applied steps.
#[derive(Clone, Copy)]
pub struct ShellStats {
    /// Looks that found their key.
    pub hits: u64,
    /// Looks that did not.
    pub misses: u64,
    /// Offers that a read buffer took.
    pub kept: u64,
    /// Offers dropped because the read buffer was full.
    pub full: u64,
    /// Offers dropped because the read buffer was contended.
    pub lost: u64,
    /// Puts that added a key.
    pub added: u64,
    /// Puts of a key that was there.
    pub updated: u64,
    /// Puts and removals refused because the write queue was full.
    pub refused: u64,
    /// Entries that an eviction dropped, rejected candidates among them.
    pub evictions: u64,
    /// Candidates that were not admitted.
    pub rejections: u64,
    /// Maintenances begun.
    pub begun: u64,
    /// Attempts to begin while another worker held the maintenance.
    pub busy: u64,
    /// Keys removed.
    pub removed: u64,
}

impl ShellStats {
    /// Before any step.
    pub const NONE: ShellStats = ShellStats {
        hits: 0,
        misses: 0,
        kept: 0,
        full: 0,
        lost: 0,
        added: 0,
        updated: 0,
        refused: 0,
        evictions: 0,
        rejections: 0,
        begun: 0,
        busy: 0,
        removed: 0,
    };

    /// Counts one reply more.
    pub fn count(&mut self, counted: Counted)
        requires { AllCounts (λ n. n ≤ MAX_STEPS) counted self.old }
        ensures { self.new ≡ shell_stats_with (λ n. n + 1) counted self.old }
    {
        match counted {
            Counted::Nothing => {}
            Counted::Hit => self.hits += 1,
            Counted::Miss => self.misses += 1,
            Counted::Kept => self.kept += 1,
            Counted::Full => self.full += 1,
            Counted::Lost => self.lost += 1,
            Counted::Added => self.added += 1,
            Counted::Updated => self.updated += 1,
            Counted::Refused => self.refused += 1,
            Counted::Removed => self.removed += 1,
            Counted::Evicted => self.evictions += 1,
            Counted::Rejected => {
                self.evictions += 1;
                self.rejections += 1;
            }
            Counted::Began => self.begun += 1,
            Counted::Busy => self.busy += 1,
        }
    }

    /// Takes back the count that the last reply raised.
    pub fn uncount(&mut self, counted: Counted)
        requires { AllCounts (λ n. 1 ≤ n) counted self.old }
        ensures { self.new ≡ shell_stats_with (λ n. n - 1) counted self.old }
    {
        match counted {
            Counted::Nothing => {}
            Counted::Hit => self.hits -= 1,
            Counted::Miss => self.misses -= 1,
            Counted::Kept => self.kept -= 1,
            Counted::Full => self.full -= 1,
            Counted::Lost => self.lost -= 1,
            Counted::Added => self.added -= 1,
            Counted::Updated => self.updated -= 1,
            Counted::Refused => self.refused -= 1,
            Counted::Removed => self.removed -= 1,
            Counted::Evicted => self.evictions -= 1,
            Counted::Rejected => {
                self.evictions -= 1;
                self.rejections -= 1;
            }
            Counted::Began => self.begun -= 1,
            Counted::Busy => self.busy -= 1,
        }
    }
}

/// Which count a reply raises: all that it takes to take it back.
#[derive(Clone, Copy)]
pub enum Counted {
    /// None.
    Nothing,
    /// That of the hits.
    Hit,
    /// That of the misses.
    Miss,
    /// That of the offers kept.
    Kept,
    /// That of the offers dropped because the read buffer was full.
    Full,
    /// That of the offers dropped because the read buffer was contended.
    Lost,
    /// That of the keys added.
    Added,
    /// That of the keys updated.
    Updated,
    /// That of the puts and removals refused.
    Refused,
    /// That of the keys removed.
    Removed,
    /// That of the evictions.
    Evicted,
    /// Those of the evictions and of the rejections.
    Rejected,
    /// That of the maintenances begun.
    Began,
    /// That of the attempts to begin while another worker held the maintenance.
    Busy,
}

impl Counted {
    /// The count that a reply raises.
    pub fn of(reply: Reply) -> Counted
        ensures { result ≡ counted_of reply }
    {
        match reply {
            Reply::Hit { .. } => Counted::Hit,
            Reply::Miss => Counted::Miss,
            Reply::Kept => Counted::Kept,
            Reply::Full => Counted::Full,
            Reply::Lost => Counted::Lost,
            Reply::Added { .. } => Counted::Added,
            Reply::Present { .. } => Counted::Updated,
            Reply::WritesFull => Counted::Refused,
            Reply::Removed { .. } => Counted::Removed,
            Reply::Evicted { .. } => Counted::Evicted,
            Reply::Rejected { .. } => Counted::Rejected,
            Reply::Began => Counted::Began,
            Reply::Busy => Counted::Busy,
            _ => Counted::Nothing,
        }
    }
}
