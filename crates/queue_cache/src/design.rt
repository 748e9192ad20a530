//! What a policy of queues goes by.
ghost use Rattle.std.specs.Prelude.{◌≡◌, Ok};
ghost use Rattle.engine_base.specs.Config.{config_fault};
ghost use Rattle.queue_cache.specs.Design.{placement_by, rules_by};

use engine_base::Config;
use replacement::{Placement, Rules};
use segments::Queue;

/// What a policy of queues goes by.
#[derive(Clone, Copy)]
pub struct QueueDesign {
    /// Which queues it has.
    pub layout: Layout,
    /// Whether it counts keys, and admits a new one in a full cache by how often it came.
    pub counts_keys: bool,
}

/// The queues of a policy.
#[derive(Clone, Copy)]
pub enum Layout {
    /// One queue.
    OneQueue,
    /// Probation, where new keys go, and protected.
    TwoQueues,
    /// A window, where new keys go, before probation and protected.
    ThreeQueues,
}

/// A design, and the configuration of a cache that is built by it.
#[derive(Clone, Copy)]
pub struct QueueSetup {
    pub design: QueueDesign,
    pub config: Config,
}

impl QueueDesign {
    /// The design of LRU.
    pub const LRU: QueueDesign = QueueDesign {
        layout: Layout::OneQueue,
        counts_keys: false,
    };

    /// That of segmented LRU.
    pub const SEGMENTED_LRU: QueueDesign = QueueDesign {
        layout: Layout::TwoQueues,
        counts_keys: false,
    };

    /// That of LRU behind the TinyLFU admission filter.
    pub const TINY_LFU_LRU: QueueDesign = QueueDesign {
        layout: Layout::OneQueue,
        counts_keys: true,
    };

    /// That of segmented LRU behind the TinyLFU admission filter.
    pub const TINY_LFU_SEGMENTED: QueueDesign = QueueDesign {
        layout: Layout::TwoQueues,
        counts_keys: true,
    };

    /// That of W-TinyLFU.
    pub const WINDOW_TINY_LFU: QueueDesign = QueueDesign {
        layout: Layout::ThreeQueues,
        counts_keys: true,
    };

    /// The rules for a configuration, which it requires `Config::check` to accept.
    pub fn rules(&self, config: &Config) -> Rules
        requires { config_fault config.now ≡ Ok tt }
        ensures { result ≡ rules_by self.now.layout config.now }
    {
        match self.layout {
            Layout::OneQueue => Rules::one_queue(config),
            Layout::TwoQueues => Rules::two_queues(config),
            Layout::ThreeQueues => Rules::three_queues(config),
        }
    }

    /// The rules of this design as they are, with all that is the same for each configuration written out.
    #[inline(always)]
    pub(crate) fn fixed(self, rules: &Rules) -> Rules
        requires { rules.now.placement ≡ placement_by self.layout }
        ensures { result ≡ rules.now }
    {
        let placement = match self.layout {
            Layout::OneQueue => Placement::Direct(Queue::Window),
            Layout::TwoQueues => Placement::Direct(Queue::Probation),
            Layout::ThreeQueues => Placement::Windowed,
        };
        Rules {
            placement,
            ..*rules
        }
    }
}
