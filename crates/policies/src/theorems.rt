//! Theorems on the policies' definitions, for callers that see a cache by its steps alone. Each of these functions does
//! nothing: its contract is the theorem.
ghost use Rattle.policies.specs.Residents.{ResidentsFit, ResidentsDistinct, ResidentsCounted};
ghost use Rattle.policies.specs.Residents.{HitsAreResidents, FetchesOnDemand, StatsAddUp, MissesFit};
ghost use Rattle.policies.specs.Theorems.{AnyHitsKeepAll, AnyRecordsShowOutcome, AnyAsksWhereOneLeft};
ghost use Rattle.policies.specs.Theorems.{AnyStepLaw, AnyAccepts, AnyIsOne, AnyReports, AnyAnswers, AnyCoversTrace};

/// A cache of any policy that made some accesses made one more after an accepted step.
pub fn any_step_law()
    ensures { AnyStepLaw }
{
    clairvoyant::theorems::clairvoyant_step_law();
}

/// A cache of any policy that made the first accesses of a trace accepts the next of them.
pub fn any_accepts()
    ensures { AnyAccepts }
{
    clairvoyant::theorems::clairvoyant_accepts();
}

/// What a cache of any policy shows after some accesses is determined by the job, the trace and the accesses.
#[tactic(auto, using(crate::proofs::StepLaws::any_one))]
pub fn any_is_one()
    ensures { AnyIsOne }
{}

/// After the whole trace, the statistics of a cache of any policy are those of the job over the trace.
#[tactic(auto, using(crate::proofs::FirstAccesses::any_reports))]
pub fn any_reports()
    ensures { AnyReports }
{}

/// An accepted access of a cache of any policy answers the outcome that the job over the whole trace has at its place.
pub fn any_answers()
    ensures { AnyAnswers }
{
    clairvoyant::theorems::clairvoyant_step_law();
}

/// A job over a trace has one outcome for each access.
#[tactic(auto, using(crate::proofs::StepLaws::any_covers_trace))]
pub fn any_covers_trace()
    ensures { AnyCoversTrace }
{}

/// The record of an access of a cache of any policy has its outcome, which names the key that left, if one did.
pub fn any_records_show_outcome()
    ensures { AnyRecordsShowOutcome }
{
    clairvoyant::theorems::clairvoyant_step_law();
}

/// Undoing a hit of a cache of any policy asks for no room, so it is never refused.
#[tactic(auto, using(crate::proofs::StepLaws::any_hits_keep_all))]
pub fn any_hits_keep_all()
    ensures { AnyHitsKeepAll }
{
    demand_cache::theorems::hits_ask_nothing();
    queue_cache::adaptive_theorems::cache_hits_ask_nothing();
}

/// A cache of any policy never holds more keys than its capacity.
#[tactic(auto, using(crate::proofs::StepLaws::residents_fit))]
pub fn residents_fit()
    ensures { ResidentsFit }
{}

/// No key is resident twice.
pub fn residents_distinct()
    ensures { ResidentsDistinct }
{}

/// The residents of a cache of any policy are its misses minus its evictions.
#[tactic(auto, using(crate::proofs::StepLaws::residents_counted))]
pub fn residents_counted()
    ensures { ResidentsCounted }
{}

/// An access is a hit exactly where its key is resident.
#[tactic(auto, using(crate::proofs::StepLaws::hits_are_residents))]
pub fn hits_are_residents()
    ensures { HitsAreResidents }
{}

/// The one key that an access may bring in is its own.
#[tactic(auto, using(crate::proofs::StepLaws::fetches_on_demand))]
pub fn fetches_on_demand()
    ensures { FetchesOnDemand }
{}

/// Each access of a trace is a hit or a miss of the job.
pub fn stats_add_up()
    ensures { StatsAddUp }
{
    any_covers_trace();
}

/// The misses of a job minus its evictions are at most its capacity.
#[tactic(auto, using(crate::proofs::StepLaws::misses_fit))]
pub fn misses_fit()
    ensures { MissesFit }
{}

/// Undoing an access of a cache of any policy asks for room only where an item left in it, so no other is ever refused.
#[tactic(auto, using(crate::proofs::StepLaws::any_asks_where_one_left))]
pub fn any_asks_where_one_left()
    ensures { AnyAsksWhereOneLeft }
{
    demand_cache::theorems::asks_where_one_left();
    queue_cache::adaptive_theorems::cache_asks_where_one_left();
}
