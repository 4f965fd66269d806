// The seats of a piece's workers, and the questions that every piece asks alike before its calls.
ghost use Rattle.std.specs.Prelude.{◌≡◌, length};
ghost use Rattle.pieces.specs.Seats.{occupant, idle, once_more, reply_in};

use crate::refusals::refuse;
use elements::commands::{Code, Command, Reply};
use elements::element::Element;
use elements::refusals::{Cause, Layer, Refusal};

// A command whose kind is known: K has the kinds of one piece.
#[derive(Clone, Copy)]
pub struct KnownCommand<K, E> {
    pub kind: K,
    pub element: E,
}

// The seat of one worker. T is what a try of the piece remembers between its accesses.
#[derive(Clone, Copy)]
pub enum Seat<K, E, T> {
    Empty,
    // a command without a try
    Loaded(KnownCommand<K, E>),
    // a try under way
    Running(T),
    // the try ended, with this reply
    Ended(Reply<E>),
}

// The seat of a worker, if there is such a worker.
pub fn occupant<K: Copy, E: Element, T: Copy>(
    seats: &[Seat<K, E, T>],
    worker: usize,
) -> Result<Seat<K, E, T>, Refusal>
    ensures { result ≡ occupant (length seats.now) seats.now worker }
{
    seats.get(worker).copied().ok_or(Refusal {
        layer: Layer::Piece,
        cause: Cause::NoSuchWorker,
    })
}

impl<K: Copy, E: Element, T: Copy> Seat<K, E, T> {
    // Refuses where no command can be seated.
    pub fn idle(self) -> Result<(), Refusal>
        ensures { result ≡ idle self }
    {
        match self {
            Seat::Empty => Ok(()),
            _ => refuse(Cause::NotIdle),
        }
    }

    // What a Take gives here.
    pub fn reply(self) -> Result<Reply<E>, Refusal>
        ensures { result ≡ reply_in E.Element.kind.blank self }
    {
        match self {
            Seat::Loaded(_) => Ok(Reply::new(Code::StoodOff, E::blank())),
            Seat::Ended(reply) => Ok(reply),
            Seat::Empty | Seat::Running(_) => refuse(Cause::NothingToTake),
        }
    }
}

// One seating more than these, if there are any left.
pub fn once_more(seatings: u32) -> Result<u32, Refusal>
    ensures { result ≡ once_more seatings }
{
    if seatings >= 4_000_000_000 {
        return refuse(Cause::NoSeatingsLeft);
    }
    Ok(seatings + 1)
}
