//! Theorems of the definitions, for callers that see the cache by its steps alone.
ghost use Rattle.clairvoyant.specs.Theorems.{ClairvoyantAccepts, ClairvoyantStepLaw};

/// An accepted step is the trace's next access. It answers what the definition gives at that
/// place of the trace, and leaves the cache one place further.
pub fn clairvoyant_step_law()
    ensures { ClairvoyantStepLaw }
{}

/// A step is refused only where it is not the trace's next access, or the trace is over.
pub fn clairvoyant_accepts()
    ensures { ClairvoyantAccepts }
{}
