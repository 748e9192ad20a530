//! Undoing what was moved.
ghost use Rattle.std.specs.Prelude.{◌≡◌, ◌≤◌, ◌+◌};
ghost use Rattle.replacement.specs.PlanMoves.{undone_moves, FitsMoves, room_for, leaver_in};
ghost use Rattle.replacement.specs.PlanMoves.{arrival, arrival_of_sent, move_out, undone_by, FitsBy};
ghost use Rattle.replacement.specs.PlanMoves.{oldest_place as oldest_place_of};

use crate::record::{Leaver, Moves, Sent};
use segments::{MoveRecord, Queue, QueuePlace, Segments};

/// Undoes what an access or an eviction moved, from the last move to the first. It requires that the record fits the
/// queues, and room for the item that left them, if one did.
pub fn undo(segments: &mut Segments, done: Moves)
    requires fits { FitsMoves done segments.old.lists }
    requires room { room_for (leaver_in done) ≤ segments.old.spare }
    ensures lists { segments.new.lists ≡ undone_moves done segments.old.lists }
    ensures spare { segments.old.spare ≤ segments.new.spare + room_for (leaver_in done) }
{
    match done {
        Moves::Renewed { to, sent, from } => {
            return_sent(segments, sent);
            return_newest(segments, Some(from), to);
        }
        Moves::Replaced { came, sent, left } => {
            return_sent(segments, sent);
            return_leaver(segments, left);
            if let Some(to) = came {
                return_newest(segments, None, to);
            }
        }
    }
}

// The item that was sent on, if one was, goes back.
fn return_sent(segments: &mut Segments, sent: Option<Sent>)
    requires { FitsBy (arrival_of_sent sent segments.old.lists) segments.old.lists }
    ensures lists { segments.new.lists
        ≡ undone_by (arrival_of_sent sent segments.old.lists) segments.old.lists }
    ensures spare { segments.old.spare ≤ segments.new.spare }
{
    if let Some(sent) = sent {
        return_newest(segments, Some(oldest_place(sent.from)), sent.to);
    }
}

// The item that left, if one did, goes back.
fn return_leaver(segments: &mut Segments, left: Option<Leaver>)
    requires fits { FitsBy (move_out left) segments.old.lists }
    requires room { room_for left ≤ segments.old.spare }
    ensures lists { segments.new.lists ≡ undone_by (move_out left) segments.old.lists }
    ensures spare { segments.old.spare ≤ segments.new.spare + room_for left }
{
    if let Some(left) = left {
        segments.put_back(MoveRecord {
            item: left.item,
            from: Some(oldest_place(left.from)),
            to: None,
        });
    }
}

// The newest item of a queue goes back to the place from which it came, or out where it is new.
fn return_newest(segments: &mut Segments, from: Option<QueuePlace>, to: Queue)
    requires { FitsBy (arrival from to segments.old.lists) segments.old.lists }
    ensures lists { segments.new.lists
        ≡ undone_by (arrival from to segments.old.lists) segments.old.lists }
    ensures spare { segments.old.spare ≤ segments.new.spare }
{
    if let Some(item) = segments.newest(to) {
        segments.put_back(MoveRecord {
            item,
            from,
            to: Some(to),
        });
    }
}

// The oldest place of a queue.
fn oldest_place(queue: Queue) -> QueuePlace
    ensures { result ≡ oldest_place_of queue }
{
    QueuePlace { queue, older: None }
}
