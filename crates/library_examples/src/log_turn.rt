//! One turn.
ghost use Rattle.std.specs.Prelude.{◌≡◌, [], ◌∷◌, IfOk, IfErr};
ghost use Rattle.turn_book.specs.Passes.{id_of};
ghost use Rattle.library_examples.specs.LogTurn.{Appends, IsAppendRefused};

use crate::log::{Log, LogLine};
use std::sync::Wait;
use turn_book::{Pass, TurnBook};

/// Why a turn wrote nothing. Each fault gives the pass back.
#[derive(Drop)]
pub enum AppendFault {
    /// An allocation failed in the turn, which was given back with the log as it was taken.
    OutOfMemory(Pass<Log>),
    /// The pass has drawn all of its turns, and is as it was.
    Spent(Pass<Log>),
}

/// Takes a turn of the pass, and writes the line after the others.
pub fn append<R: Wait>(
    rt: &R,
    book: &TurnBook<Log>,
    pass: Pass<Log>,
    line: LogLine,
) -> Result<Pass<Log>, AppendFault>
    requires own { pass.book ≡ id_of book.now }
    requires worker { pass.worker ≡ line.worker }
    ensures appended { IfOk result (λ p. Appends (line ∷ []) pass p) }
    ensures fault { IfErr result (λ f. IsAppendRefused f book.now pass) }
{
    let mut turn = match book.take(rt, pass) {
        Ok(turn) => turn,
        Err(pass) => return Err(AppendFault::Spent(pass)),
    };
    match turn.value().lines.push(line) {
        Ok(()) => Ok(book.give(turn)),
        Err(_) => Err(AppendFault::OutOfMemory(book.give(turn))),
    }
}
