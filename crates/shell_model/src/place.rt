//! Where a worker stands in the walk of one call.
ghost use Rattle.std.specs.Prelude.{◌≡◌, ◌≤◌, true};
ghost use Rattle.engine_base.specs.declared.limits.TheConstants.{MAX_STRIPES};
ghost use Rattle.engine_base.specs.History.{Entries};
ghost use Rattle.shell_model.specs.WalkPlaces.{is_place};

use engine_base::{Act, Call, Phase, Worker};

/// A worker in the walk of one call: the act that it was asked to make last, or is to make first.
#[derive(Clone, Copy)]
pub struct Local {
    pub worker: Worker,
    pub stripes: u8,
    pub act: Act,
    /// How many items of its stripe were drained already, where the act is an [`Act::DrainRead`].
    pub drained: u8,
    pub ghost some: { 1 ≤ stripes },
    pub ghost few: { stripes ≤ MAX_STRIPES },
    pub ghost placed: { is_place stripes act drained ≡ true },
}

impl Local {
    ghost use Rattle.std.specs.Prelude.{◌↔◌};
    ghost use Rattle.shell_model.specs.Walks.{IsWalk};
    ghost use Rattle.shell_model.specs.WalkPlaces.{call_act, phase_act};
    ghost use Rattle.shell_model.specs.NextActs.{IsAheadOf};

    /// At the beginning of the walk of a call, of a cache with this number of read buffers: 1 to [`MAX_STRIPES`].
    ///
    /// [`MAX_STRIPES`]: engine_base::MAX_STRIPES
    pub fn start(worker: Worker, stripes: u8, call: Call) -> Local
        requires { (1 ≤ stripes) × (stripes ≤ MAX_STRIPES) }
        ensures ahead { (es : Entries) → IsWalk worker stripes call es ↔ IsAheadOf result es }
        ensures place { (result.act ≡ call_act call) × (result.drained ≡ 0) }
        ensures same { (result.worker ≡ worker) × (result.stripes ≡ stripes) }
    {
        let act = match call {
            Call::Read(key) => Act::Look { key },
            Call::Remove(key) => Act::Remove { key },
        };
        Local {
            worker,
            stripes,
            act,
            drained: 0,
        }
    }

    /// At the first act of a worker that holds the maintenance and is at this phase of it, in a
    /// cache with this number of read buffers: 1 to [`MAX_STRIPES`].
    ///
    /// [`MAX_STRIPES`]: engine_base::MAX_STRIPES
    pub fn resume(worker: Worker, stripes: u8, phase: Phase) -> Local
        requires { (1 ≤ stripes) × (stripes ≤ MAX_STRIPES) }
        ensures place { (result.act ≡ phase_act phase) × (result.drained ≡ 0) }
        ensures same { (result.worker ≡ worker) × (result.stripes ≡ stripes) }
    {
        let act = match phase {
            Phase::Reads => Act::DrainRead { stripe: 0 },
            Phase::Writes => Act::DrainWrite,
            Phase::Evictions => Act::Evict,
        };
        Local {
            worker,
            stripes,
            act,
            drained: 0,
        }
    }
}
