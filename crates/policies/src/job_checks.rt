//! What is checked before any job is run.
ghost use Rattle.std.specs.Prelude.{◌≡◌, Some, None, MatchResult, map};
ghost use Rattle.policies.specs.FaultyJobs.{at_capacity, faulty_in};

use crate::actor_fault::ActorFault;
use step_record::{Config, Job};

/// The largest number of jobs that are run at once.
pub const MAX_ACTORS: usize = 64;

/// The job with another capacity.
pub fn with_capacity(job: &Job, capacity: u32) -> Job
    ensures { result ≡ at_capacity job.now capacity }
{
    Job {
        policy: job.policy,
        sizes: job.sizes,
        config: Config {
            capacity,
            ..job.config
        },
        tuning: job.tuning,
    }
}

/// The first job, if any, whose configuration `Config::check` refuses, as a fault.
pub fn check_jobs(jobs: &[Job]) -> Result<(), ActorFault>
    ensures { MatchResult result (λ _. faulty_in jobs.now ≡ None) (λ f. faulty_in jobs.now ≡ Some f) }
{
    for index in 0..jobs.len() {
        if jobs[index].config.check().is_err() {
            return Err(ActorFault::Config { index });
        }
    }
    Ok(())
}

/// The first capacity, if any, with which `Config::check` refuses the job's configuration, as a fault.
pub fn check_capacities(job: &Job, capacities: &[u32]) -> Result<(), ActorFault>
    ensures { MatchResult result (λ _. faulty_in (map (at_capacity job.now) capacities.now) ≡ None)
        (λ f. faulty_in (map (at_capacity job.now) capacities.now) ≡ Some f) }
{
    for index in 0..capacities.len() {
        if with_capacity(job, capacities[index])
            .config
            .check()
            .is_err()
        {
            return Err(ActorFault::Config { index });
        }
    }
    Ok(())
}
