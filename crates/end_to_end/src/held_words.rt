//! What undoing costs in memory, by the halvings of the frequency sketch.
ghost use Rattle.std.specs.Prelude.{◌≡◌, ◌+◌, ◌-◌, ◌*◌, ◌/◌, ◌≤◌, Some, length};
ghost use Rattle.admission.specs.Frequency.{FrequencyData, halving_words};

use journal::Session;
use queue_cache::WindowTinyLfu;

/// How many words the undo records of a session over WindowTinyLfu hold: those of one halving for each halving since
/// the session was opened, at most 1 + steps / (5 * capacity).
pub fn words_held(session: &Session<WindowTinyLfu>) -> u64
    ensures { (f g : FrequencyData) → session.now.opening.frequency ≡ Some f → session.now.engine.frequency ≡ Some g →
        (result ≡ (g.halvings - f.halvings) * halving_words f)
        × (g.halvings - f.halvings ≤ 1 + length session.now.kept / (5 * f.capacity)) }
{
    session.sound();
    session.held()
}
