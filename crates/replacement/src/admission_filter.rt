//! The admission filter: who stays where one of two keys has to go.
ghost use Rattle.std.specs.Prelude.{◌≡◌, [], Ok, IfOk, option_map};
ghost use Rattle.engine_base.specs.Config.{config_fault};
ghost use Rattle.admission.specs.Frequency.{frequency_of, empty_frequency};
ghost use Rattle.replacement.specs.Admission.{admits_in};
ghost use Rattle.replacement.specs.Shape.{shape_of, open_shape_of};
ghost use Rattle.std.specs.Prelude.{◌≤◌};
ghost use Rattle.std.specs.Int.{IsPowerOfTwo};

use admission::Frequency;
use engine_base::{Config, Key};
use std::alloc::{AllocError, Global};

/// The frequency of no key, as large as a configuration asks for. It requires one that `Config::check` accepts; the one
/// error is that an allocation failed.
pub fn open_frequency(alloc: Global, config: &Config) -> Result<Frequency, AllocError>
    requires { config_fault config.now ≡ Ok tt }
    ensures { IfOk result (λ f. f ≡ frequency_of (shape_of config.now) []) }
{
    let frequency = Frequency::new(alloc, config.capacity, config.spread)?;
    Ok(frequency)
}

/// The same without a doorkeeper, with `columns` columns in each row of the sketch for each entry, a power of two up to 4.
pub fn open_frequency_without_doorkeeper(
    alloc: Global,
    config: &Config,
    columns: u32,
) -> Result<Frequency, AllocError>
    requires checked { config_fault config.now ≡ Ok tt }
    requires power { IsPowerOfTwo columns }
    requires columns { columns ≤ 4 }
    ensures { IfOk result (λ f. f ≡ empty_frequency (open_shape_of columns config.now)) }
{
    let frequency = Frequency::without_doorkeeper(alloc, config.capacity, config.spread, columns)?;
    Ok(frequency)
}

/// Whether a candidate takes a victim's place: where keys are counted, only if it came more often; else always.
#[inline(always)]
pub(crate) fn admits(frequency: Option<&Frequency>, candidate: Key, victim: Key) -> bool
    ensures { result ≡ admits_in (option_map (λ f. f.now) frequency.entry) candidate victim }
{
    match frequency {
        Some(frequency) => frequency.admits(candidate, victim),
        None => true,
    }
}
