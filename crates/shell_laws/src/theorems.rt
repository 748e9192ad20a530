//! Laws of every list of steps. Each of these functions does nothing: its contract is the theorem.
ghost use Rattle.shell_laws.specs.Capacity.{CapacityLaw};
ghost use Rattle.shell_laws.specs.Evictions.{EvictionLaw};
ghost use Rattle.shell_laws.specs.Holding.{HolderLaw};
ghost use Rattle.shell_laws.specs.Maintenance.{MaintenanceLaw};
ghost use Rattle.shell_laws.specs.Sharpness.{SharpnessLaw};

/// In every reachable state the queues hold at most the capacity and as many items more as tasks were applied in the
/// maintenance under way, and the table has at most as many keys as the queues and the waiting additions have items.
pub fn near_capacity()
    ensures { CapacityLaw }
{}

/// An Evict takes one item out of a window that is over its size, and is answered Fits just where the window fits.
pub fn evictions_shorten()
    ensures { EvictionLaw }
{}

/// A maintenance takes no more items out of the window than it applied tasks.
pub fn maintenance_is_bounded()
    ensures { MaintenanceLaw }
{}

/// In every reachable state a worker holds the maintenance exactly where the drain state is ToIdle or ToRequired.
pub fn holders_drain()
    ensures { HolderLaw }
{}

/// Every configuration reaches the bounds of the queues and of the table, after each number of tasks, so neither can be
/// smaller.
pub fn bounds_are_reached()
    ensures { SharpnessLaw }
{}
