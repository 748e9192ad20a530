//! How good an estimate is. Each of these functions does nothing: its contract is the theorem.
ghost use Rattle.admission_laws.specs.Theorems.{ListsAreRecorded, EstimatesAreNeverLow, EstimatesCountTheEra};
ghost use Rattle.admission_laws.specs.Theorems.{EstimatesAreBounded, EstimatesAreExact, EstimatesRise};
ghost use Rattle.admission_laws.specs.Theorems.{OpenEstimatesRise, OpenEstimatesCount};

/// The frequency of a list of keys by its eras is what recording them one after another gives.
#[tactic(auto, using(crate::proofs::Recorded::lists_are_recorded))]
pub fn lists_are_recorded()
    ensures { ListsAreRecorded }
{}

/// No key is estimated below an exact count of the same eras: a Count-Min sketch errs on one side. (Cormode and
/// Muthukrishnan 2005.)
pub fn estimates_are_never_low()
    ensures { EstimatesAreNeverLow }
{}

/// A key's estimate is at least the number of its records since the last halving, up to 16.
pub fn estimates_count_the_era()
    ensures { EstimatesCountTheEra }
{}

/// An estimate is at most 16, and above the key's own count by no more than what collides with it in any one row.
#[tactic(auto, using(crate::proofs::Counting::are_bounded))]
pub fn estimates_are_bounded()
    ensures { EstimatesAreBounded }
{}

/// The estimate of a key that collides with no other in some row, and in one of its bits, is the exact count.
#[tactic(auto, using(crate::proofs::Counting::exact))]
pub fn estimates_are_exact()
    ensures { EstimatesAreExact }
{}

/// A recorded key's estimate rises by 1 and no other falls, but across a halving, which leaves the half of the least
/// counter.
#[tactic(auto, using(crate::proofs::Rising::rise))]
pub fn estimates_rise()
    ensures { EstimatesRise }
{}

/// The same without a doorkeeper, where a key whose counters are full does not age the sketch.
#[tactic(auto, using(crate::proofs::Open::open_rise))]
pub fn open_estimates_rise()
    ensures { OpenEstimatesRise }
{}

/// Without a doorkeeper a key's estimate rises by at least the number of its records, up to 16, while no halving comes.
#[tactic(auto, using(crate::proofs::Open::open_count))]
pub fn open_estimates_count()
    ensures { OpenEstimatesCount }
{}
