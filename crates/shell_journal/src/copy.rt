//! The journal of a concurrent cache, written as text and read back.
ghost use Rattle.std.specs.Prelude.{◌≡◌, ◌≢◌, Err};
ghost use Rattle.journal_text.specs.Faults.{Accepts};
ghost use Rattle.shell_journal.specs.Copy.{CanHold};

use journal::Session;
use journal_text::{JournalFault, read_journal, write_journal};
use maintenance::Shell;
use std::alloc::Global;
use streams::CountedWriter;

/// Writes the applied steps of a session as text, and reads the text into a new session, which was opened alike and
/// has room for them. Nothing is asked of the text: it is never too long. The one fault is that an allocation failed.
pub fn copy_journal(
    alloc: Global,
    session: &Session<Shell>,
    copy: &mut Session<Shell>,
) -> Result<(), JournalFault>
    requires { CanHold session.now copy.old }
    // The new session then holds the same entries, unless an allocation failed.
    ensures taken { Accepts result copy.new.kept session.now.kept }
    // Bytes in memory are read without a failure.
    ensures unfailed { result ≢ Err JournalFault.Read }
    ensures opening { copy.new.opening ≡ copy.old.opening }
{
    crate::theorems::text_size();
    shell_model::theorems::replies_belong();
    session.sound();
    // The copy stands where it was opened, and so where the session was: on a cache as there can be one.
    copy.engine().reachable();
    let bytes = Vec::new(alloc);
    let mut text = CountedWriter::new(bytes);
    if write_journal(alloc, session, &mut text).is_err() {
        return Err(JournalFault::OutOfMemory);
    }
    let mut reader = text.get_ref().as_slice();
    read_journal(alloc, &mut reader, copy)
}
