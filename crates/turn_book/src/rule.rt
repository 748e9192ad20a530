//! The rule of the table, and what each step reports.
use crate::view::{Terms, View};
use atomic_table::{Join, Play, Split, TableRule};
use engine_base::Kept;

/// The rule that every step keeps.
pub struct Turns;

impl<T: Kept> TableRule<Option<T>, View<T, T::Entry>, Terms<T>> for Turns {
    ghost use Rattle.turn_book.specs.Turns.{InTurns, beginner};

    ghost holds = { λ k. InTurns T.origin T.entries T.worker_of T.undone k.opening.value k.workers };

    ghost first = { λ k. beginner T.origin T.entries T.worker_of T.undone k.opening.value k.workers };
}

/// A ticket is drawn.
pub struct Draw;

impl<T: Kept> Play<Option<T>, View<T, T::Entry>> for Draw {
    ghost use Rattle.turn_book.specs.Turns.{Drew};

    ghost then = { Drew T.origin T.entries T.worker_of T.undone };
}

/// A seat with a ticket looks whether its turn has come.
pub struct Look;

impl<T: Kept> Play<Option<T>, View<T, T::Entry>> for Look {
    ghost use Rattle.turn_book.specs.Turns.{Looked};

    ghost then = { Looked T.origin T.entries T.worker_of T.undone };
}

/// The turn is passed on to the next ticket.
pub struct PassOn;

impl<T: Kept> Play<Option<T>, View<T, T::Entry>> for PassOn {
    ghost use Rattle.turn_book.specs.Turns.{Passed};

    ghost then = { Passed T.origin T.entries T.worker_of T.undone };
}

/// Seats are split and joined by the parts of the workers.
pub struct PassParts;

impl<T, E> Split<View<T, E>> for PassParts {
    ghost use Rattle.turn_book.specs.Views.{left_of, right_of};

    ghost left = { left_of };

    ghost right = { right_of };
}

impl<T, E> Join<View<T, E>> for PassParts {
    ghost use Rattle.turn_book.specs.Views.{both_of, spent};

    ghost both = { both_of };

    ghost spent = { spent };
}
