//! The book: a table of two words and one slot. Word 0 is the next ticket, word 1 the ticket whose turn it is, and
//! the slot has the value between two turns. A worker has a pass, and while its turn lasts a turn, which lends it the
//! value.
ghost use Rattle.std.specs.Prelude.{◌≡◌, ◌≤◌, ◌<◌, List, map, length, vec_len, vec_capacity, [], IfOk};
ghost use Rattle.std.specs.Prelude.{IfErr, OnOk};
ghost use Rattle.engine_base.specs.declared.worker.TheConstants.{MAX_WORKERS};
ghost use Rattle.turn_book.specs.declared.book.TheConstants.{MAX_TURNS};
ghost use Rattle.turn_book.specs.Faults.{value_in, IsOpenCause};
ghost use Rattle.turn_book.specs.Passes.{book_id, id_of, InOrder, Takes, Gives, Ends};
ghost use Rattle.turn_book.specs.Seats.{IsBoard, part_of, pass_view};
ghost use Rattle.turn_book.specs.Turns.{AddsInTurn, Every, Comes};
ghost use Rattle.turn_book.specs.Views.{Waits, Rests};
ghost use Rattle.turn_book.specs.Turns.{beginner};
ghost use Rattle.turn_book.specs.Views.{parts_from};

use crate::fault::OpenFault;
use crate::rule::{Draw, Look, PassOn, PassParts, Turns};
use crate::view::{Terms, View};
use crate::waiting::WaitingArray;
use atomic_table::{Seat, Table};
use engine_base::{Kept, MAX_WORKERS};
use std::alloc::Global;
use std::marker::Model;
use std::snapshot::Snapshot;
use std::sync::Wait;

/// How many turns a pass draws at most.
pub const MAX_TURNS: u64 = 1 << 32;

type Board<T> = Table<Option<T>, View<T, <T as Kept>::Entry>, Terms<T>, Turns, Global>;

type BookSeat<T> = Seat<Option<T>, View<T, <T as Kept>::Entry>>;

/// A value that workers take in turns, in the order in which they asked: a ticket lock. The entries that the value
/// gained since it was opened are those that the passes made in their turns, each pass's in its order.
#[derive(Drop)]
pub struct TurnBook<T: Kept> {
    table: Board<T>,
    turns: u64,
    waiting: WaitingArray,
}

impl<T: Kept> Model for TurnBook<T> {
    ghost use Rattle.std.specs.Prelude.{◌≤◌};
    ghost use Rattle.turn_book.specs.declared.book.TheConstants.{MAX_TURNS};
    ghost use Rattle.turn_book.specs.Passes.{BookState};
    ghost use Rattle.turn_book.specs.Seats.{IsBoard};

    ghost Value = { BookState T };

    ghost view = { λ b. record {
      table = b.table.shared.table_id;
      opening = b.table.shared.key.opening.value;
      workers = b.table.shared.key.workers;
      turns = b.turns;
    } };

    ghost invariant = { λ b. IsBoard b.table.shared.table_id b.table.shared.key.workers × (b.turns ≤ MAX_TURNS) };
}

impl<T: Kept> TurnBook<T> {
    /// A book over the value, with a pass for each worker, the pass at place `w` for worker `w`. Each pass may draw
    /// `turns` turns.
    ///
    /// Each fault gives the value back: first `Workers` where there are none or more than [`MAX_WORKERS`], then
    /// `Turns` where there are none or more than [`MAX_TURNS`], and `OutOfMemory` where an allocation failed.
    pub fn open(
        alloc: Global,
        value: T,
        workers: u8,
        turns: u64,
    ) -> Result<(TurnBook<T>, Vec<Pass<T>>), OpenFault<T>>
        ensures opens { IfOk result (λ r. (r.0.opening ≡ value) × (r.0.workers ≡ workers) × (r.0.turns ≡ turns)) }
        ensures own { IfOk result (λ r. Every (λ p. p.book ≡ id_of r.0) r.1.items) }
        ensures all { IfOk result (λ r. InOrder 0 r.1.items × (length r.1.items ≡ workers) × (vec_len r.1 ≡ workers)) }
        ensures fresh { IfOk result (λ r. Every (λ p. (p.own ≡ []) × (p.last ≡ T.entries value)
            × (p.draws ≡ 0)) r.1.items) }
        ensures accepted { OnOk result ((1 ≤ workers) × (workers ≤ MAX_WORKERS) × (1 ≤ turns) × (turns ≤ MAX_TURNS)) }
        ensures cause { IfErr result (λ f. IsOpenCause f workers turns) }
        ensures returned { IfErr result (λ f. value_in f ≡ value) }
    {
        if workers == 0 || workers > MAX_WORKERS {
            return Err(OpenFault::Workers(value));
        }
        if turns == 0 || turns > MAX_TURNS {
            return Err(OpenFault::Turns(value));
        }
        let Ok(passes) = Vec::with_capacity(alloc, usize::from(workers)) else {
            return Err(OpenFault::OutOfMemory(value));
        };
        match lay(alloc, value, workers) {
            Ok((table, seat)) => {
                let passes = deal(&table, seat, passes, workers);
                let waiting = WaitingArray::new();
                Ok((
                    TurnBook {
                        table,
                        turns,
                        waiting,
                    },
                    passes,
                ))
            }
            Err(value) => Err(OpenFault::OutOfMemory(value)),
        }
    }

    /// Waits for a turn of the pass, which then has the value. Where the pass has drawn all of its turns it comes
    /// back as it was, and nothing else is an error.
    ///
    /// The value has the origin that it was opened with. Its entries begin with those that this pass gave last, and
    /// past the opening ones those of this worker are the pass's own. Its undone entries are the opening ones, or none
    /// once there is an entry past the opening ones.
    pub fn take<R: Wait>(&self, rt: &R, pass: Pass<T>) -> Result<Turn<T>, Pass<T>>
        requires own { pass.book ≡ id_of self.now }
        ensures took { IfOk result (λ t. Takes T.origin T.entries T.worker_of T.undone self.now.opening pass t) }
        ensures left { OnOk result (pass.draws < self.now.turns) }
        ensures spent { IfErr result (λ p. (p ≡ pass) × (self.now.turns ≤ p.draws)) }
    {
        if pass.drawn >= self.turns {
            return Err(pass);
        }
        let Pass { mut seat, drawn } = pass;
        let ticket = self.table.shared.fetch_add::<Draw>(&mut seat, 0, 1);
        wait(&self.table, rt, &self.waiting, &mut seat, ticket);
        let Some(value) = self.table.shared.exchange(&mut seat, 0, None) else {
            unreachable!()
        };
        Ok(Turn {
            seat,
            drawn: drawn + 1,
            taken: Snapshot::of(&value),
            value,
        })
    }

    /// Gives the turn back, and passes it on to the next ticket. The value has the origin that it had when it was
    /// taken, and the same entries or one more, of this worker, at their end; the pass's own list gains just that. The
    /// undone entries are the same too, and with one more entry there are none.
    pub fn give(&self, turn: Turn<T>) -> Pass<T>
        requires own { turn.pass.book ≡ id_of self.now }
        requires leaves { (made : List T.Entry) × AddsInTurn T.origin T.entries T.worker_of T.undone turn.pass.worker
            turn.taken turn.value made }
        ensures gave { Gives T.origin T.entries T.worker_of T.undone turn result }
    {
        let Turn {
            mut seat,
            drawn,
            taken: _,
            value,
        } = turn;
        let None = self.table.shared.exchange(&mut seat, 0, Some(value)) else {
            unreachable!()
        };
        let served = self.table.shared.fetch_add::<PassOn>(&mut seat, 1, 1);
        self.waiting.wake(served.wrapping_add(1));
        Pass { seat, drawn }
    }

    /// The value at the end, from all of the book's passes in their order. It has the opening origin; past the
    /// opening entries those of worker `w` are the own list of the pass at place `w`, and no other worker has any;
    /// and its entries begin with those that each pass gave last. Where no entry was made its undone entries are the
    /// opening ones, and else it has none.
    pub fn close(self, passes: Vec<Pass<T>>) -> T
        requires own { Every (λ p. p.book ≡ id_of self) passes.items }
        requires all { InOrder 0 passes.items × (length passes.items ≡ self.workers) }
        requires some { 0 < vec_len passes }
        ensures { Ends T.origin T.entries T.worker_of T.undone self.opening passes.items result }
    {
        let TurnBook {
            table,
            turns: _,
            waiting: _,
        } = self;
        let seat = gather(&table, passes);
        let mut closed = table.close_with(seat);
        let slot = closed.take(0);
        closed.free();
        slot.unwrap()
    }
}

/// The right of one worker to take turns: what it has entered so far, and how many turns it has drawn.
#[derive(Drop)]
pub struct Pass<T: Kept> {
    seat: BookSeat<T>,
    drawn: u64,
}

impl<T: Kept> Model for Pass<T> {
    ghost use Rattle.turn_book.specs.Passes.{PassState};
    ghost use Rattle.turn_book.specs.Seats.{pass_in, IsPassAt};

    ghost Value = { PassState T T.Entry };

    ghost view = { λ p. pass_in p.seat.table_id p.seat.me.0 p.drawn };

    ghost invariant = { λ p. IsPassAt p.seat.table_id p.seat.me p.drawn };
}

/// A turn that has come, with the value. One that is dropped keeps the book taken for good.
#[derive(Drop)]
pub struct Turn<T: Kept> {
    seat: BookSeat<T>,
    drawn: u64,
    taken: Snapshot<T>,
    value: T,
}

impl<T: Kept> Model for Turn<T> {
    ghost use Rattle.turn_book.specs.Passes.{TurnState};
    ghost use Rattle.turn_book.specs.Seats.{turn_in, IsTurnAt};

    ghost Value = { TurnState T T.Entry };

    ghost view = { λ t. turn_in t.seat.table_id t.seat.me.0 t.drawn t.taken.value t.value };

    ghost invariant = { λ t. IsTurnAt t.seat.table_id t.seat.me t.drawn t.taken.value };
}

impl<T: Kept> Turn<T> {
    ghost use Rattle.std.specs.Borrow.{sem};
    ghost use Rattle.turn_book.specs.LentTurn.{lends_value};

    /// The value, to read and to write while the turn lasts.
    pub fn value(&mut self) -> &mut T
        ensures* writes_back { sem 𝓛 (lends_value T.row T.Entry.row T.Kept self.entry result) }
        ensures value { result.now ≡ self.old.value }
    {
        &mut self.value
    }
}

// Makes the table. Where the allocation fails, the value comes back.
fn lay<T: Kept>(alloc: Global, value: T, workers: u8) -> Result<(Board<T>, BookSeat<T>), T>
    ensures counts { IfOk result (λ r. (r.0.shared.table_id.words ≡ 2) × (r.0.shared.table_id.slots ≡ 1)
        × (r.0.shared.key.workers ≡ workers) × (r.0.shared.key.opening.value ≡ value)) }
    ensures seat { IfOk result (λ r. (r.1.table_id ≡ r.0.shared.table_id)
        × (r.1.me ≡ (beginner T.origin T.entries T.worker_of T.undone value workers, []))) }
    ensures back { IfErr result (λ v. v ≡ value) }
{
    let terms = Terms {
        opening: Snapshot::of(&value),
        workers,
    };
    let mut slots = Vec::new(alloc);
    match slots.push(Some(value)) {
        Ok(()) => {}
        Err(refused) => return Err(refused.value.unwrap()),
    }
    match Board::<T>::new(alloc, &[0, 0], slots, &terms) {
        Ok(made) => Ok(made),
        Err(refused) => {
            let mut slots = refused.slots;
            Err(slots.pop().unwrap().unwrap())
        }
    }
}

// Waits until the ticket's turn has come.
fn wait<T: Kept, R: Wait>(
    board: &Board<T>,
    rt: &R,
    waiting: &WaitingArray,
    seat: &mut BookSeat<T>,
    ticket: u64,
)
    requires board { IsBoard board.now.shared.table_id board.now.shared.key.workers }
    requires own { seat.old.table_id ≡ board.now.shared.table_id }
    requires waits { Waits seat.old.me ticket }
    ensures same { seat.new.table_id ≡ seat.old.table_id }
    ensures came { Comes T.origin T.entries T.worker_of T.undone seat.old.me ticket seat.new.me }
{
    let mut looks: u32 = 0;
    for _ in rt.forever() {
        let serving = board.shared.load::<Look>(seat, 1);
        if serving == ticket {
            return;
        }
        waiting.rest(rt, ticket, serving, looks);
        looks = looks.wrapping_add(1);
    }
    unreachable!()
}

// Deals a pass to each worker, in order: the first part of the seat is cut off for each but the last.
fn deal<T: Kept>(
    board: &Board<T>,
    mut seat: BookSeat<T>,
    mut passes: Vec<Pass<T>>,
    workers: u8,
) -> Vec<Pass<T>>
    requires board { IsBoard board.now.shared.table_id board.now.shared.key.workers }
    requires own { seat.table_id ≡ board.now.shared.table_id }
    requires some { 0 < workers }
    requires room { (passes.items ≡ []) × (vec_len passes ≡ 0) × (workers ≤ vec_capacity passes) }
    requires rests { Rests seat.me (parts_from seat.me.0.last 0 workers) seat.me.0.last }
    ensures own { Every (λ p. p.book ≡ record { table = seat.table_id; opening = seat.me.0.opening }) result.items }
    ensures parts { map part_of result.items ≡ parts_from seat.me.0.last 0 workers }
    ensures len { vec_len result ≡ workers }
{
    for w in 1..workers {
        let first = board.shared.split_seat::<PassParts>(&mut seat);
        passes.push_reserved(Pass {
            seat: first,
            drawn: 0,
        });
    }
    passes.push_reserved(Pass { seat, drawn: 0 });
    passes
}

// Joins the seats of all passes.
fn gather<T: Kept>(board: &Board<T>, mut passes: Vec<Pass<T>>) -> BookSeat<T>
    requires board { IsBoard board.now.shared.table_id board.now.shared.key.workers }
    requires some { 0 < vec_len passes }
    requires own { Every (λ p. p.book ≡ book_id board.now.shared.table_id board.now.shared.key.opening.value)
        passes.items }
    ensures same { result.table_id ≡ board.now.shared.table_id }
    ensures parts { Rests result.me (map part_of passes.items) result.me.0.last }
{
    let Pass { mut seat, drawn: _ } = passes.pop().unwrap();
    while let Some(pass) = passes.pop() {
        let Pass {
            seat: other,
            drawn: _,
        } = pass;
        board.shared.join_seat::<PassParts>(&mut seat, other);
    }
    seat
}
