//! Which engine runs each policy, and what it goes by: the one table of policies.
ghost use Rattle.std.specs.Prelude.{◌≡◌, ◌≤◌, Ok};
ghost use Rattle.engine_base.specs.declared.limits.TheConstants.{MAX_CAPACITY};
ghost use Rattle.engine_base.specs.Config.{config_fault};
ghost use Rattle.engine_base.specs.PartSize.{part_size};
ghost use Rattle.policies.specs.Design.{design_of};

use demand_cache::DemandPolicy;
use policy_pages::two_q::TwoQSizes;
use queue_cache::QueueDesign;
use step_record::{Job, Policy};

/// What a policy is.
#[derive(Clone, Copy)]
pub enum Design {
    /// A policy of queues.
    Queues(QueueDesign),
    /// A policy that knows the whole trace: Belady's optimal policy.
    KnowsTrace,
    /// A policy that keeps each missed key, with the sizes of its parts.
    Demand(DemandPolicy),
    /// W-TinyLFU with a window whose size follows the hits, as Caffeine runs it.
    Adaptive,
}

/// What the policy of a job is, with the sizes that the job gives its parts. It requires a configuration that
/// `Config::check` accepts.
pub fn design_of(job: &Job) -> Design
    requires { config_fault job.now.config ≡ Ok tt }
    ensures { result ≡ design_of job.now }
{
    let capacity = job.config.capacity;
    let tuning = &job.tuning;
    match job.policy {
        Policy::Lru => Design::Queues(QueueDesign::LRU),
        Policy::SegmentedLru => Design::Queues(QueueDesign::SEGMENTED_LRU),
        Policy::TinyLfuLru => Design::Queues(QueueDesign::TINY_LFU_LRU),
        Policy::TinyLfuSegmented => Design::Queues(QueueDesign::TINY_LFU_SEGMENTED),
        Policy::WindowTinyLfu => Design::Queues(QueueDesign::WINDOW_TINY_LFU),
        Policy::Clairvoyant => Design::KnowsTrace,
        Policy::Fifo => Design::Demand(DemandPolicy::Fifo),
        Policy::Clock => Design::Demand(DemandPolicy::Clock),
        Policy::Sieve => Design::Demand(DemandPolicy::Sieve),
        Policy::S3Fifo => Design::Demand(DemandPolicy::S3Fifo(part_size(tuning.small, capacity))),
        Policy::TwoQ => Design::Demand(DemandPolicy::TwoQ(TwoQSizes {
            kin: part_size(tuning.kin, capacity),
            kout: part_size(tuning.kout, capacity),
        })),
        Policy::Arc => Design::Demand(DemandPolicy::Arc),
        Policy::Caffeine => Design::Adaptive,
        Policy::Car => Design::Demand(DemandPolicy::Car),
    }
}

// A part of so many percent of the capacity.
fn part_size(percent: u8, capacity: u32) -> u32
    requires { capacity ≤ MAX_CAPACITY }
    ensures { result ≡ part_size percent capacity }
{
    (capacity * u32::from(percent) / 100).max(1)
}
