//! What a policy of queues goes by.
ghost use Rattle.std.specs.Prelude.{◌≡◌, ◌≤◌, Ok};
ghost use Rattle.engine_base.specs.Config.{config_fault};
ghost use Rattle.replacement.specs.Rules.{main_size, one_queue, two_queues, three_queues};

use engine_base::Config;
use segments::Queue;

/// Where a new item goes.
#[derive(Clone, Copy)]
pub enum Placement {
    /// To a queue: where the cache is full, that queue's oldest item leaves for it, or it is rejected.
    Direct(Queue),
    /// To the window, and one eviction follows.
    Windowed,
}

/// The sizes that a policy of queues goes by, and where new items go.
#[derive(Clone, Copy)]
pub struct Rules {
    /// How many items the cache holds.
    pub capacity: usize,
    /// How many of them the window holds.
    pub window: usize,
    /// How many of them the protected queue holds.
    pub protected: usize,
    /// Where a new item goes.
    pub placement: Placement,
}

// How many items the main part holds.
fn main_part(config: &Config) -> usize
    requires { config_fault config.now ≡ Ok tt }
    ensures value { result ≡ main_size config.now }
    ensures within { result ≤ config.now.capacity }
{
    let capacity = config.capacity as usize;
    let percent = config.main_percent as usize;
    capacity * percent / 100
}

impl Rules {
    /// One queue, as Lru has it. It requires a configuration that `Config::check` accepts, as the others do.
    pub fn one_queue(config: &Config) -> Rules
        requires { config_fault config.now ≡ Ok tt }
        ensures { result ≡ one_queue config.now }
    {
        Rules {
            capacity: config.capacity as usize,
            window: 0,
            protected: 0,
            placement: Placement::Direct(Queue::Window),
        }
    }

    /// Probation and protected, as SegmentedLru has them: protected holds four fifths.
    pub fn two_queues(config: &Config) -> Rules
        requires { config_fault config.now ≡ Ok tt }
        ensures { result ≡ two_queues config.now }
    {
        let capacity = config.capacity as usize;
        Rules {
            capacity,
            window: 0,
            protected: capacity * 80 / 100,
            placement: Placement::Direct(Queue::Probation),
        }
    }

    /// A window before probation and protected, as WindowTinyLfu has them: the main part holds `main_percent` of the
    /// capacity, and protected four fifths of that.
    pub fn three_queues(config: &Config) -> Rules
        requires { config_fault config.now ≡ Ok tt }
        ensures { result ≡ three_queues config.now }
    {
        let capacity = config.capacity as usize;
        let main = main_part(config);
        Rules {
            capacity,
            window: capacity - main,
            protected: main * 80 / 100,
            placement: Placement::Windowed,
        }
    }
}
