// A whole call of one worker, on any piece.
ghost use Rattle.std.specs.Prelude.{◌≡◌};
ghost use Rattle.elements.specs.Outcomes.{Exactly};
ghost use Rattle.pieces.specs.Alone.{ended_by, Finished, called_alone};
ghost use Rattle.pieces.specs.Calls.{seated, taken, Stepped};
ghost use Rattle.pieces.specs.Meanings.{names_of, view_of};

use crate::piece::Piece;
use elements::answers::StepAnswer;
use elements::commands::{Command, Reply};
use elements::element::Element;
use elements::refusals::Refusal;

// A Seat, by its meaning. This and the next two each call a method of their own: of a closure over the piece a proof
// would not know what it leaves.
fn seat_meant<P: Piece>(
    piece: &mut P,
    worker: usize,
    command: Command<P::Element>,
) -> Result<(), Refusal>
    ensures names { names_of P.Piece.meaning piece.new ≡ names_of P.Piece.meaning piece.old }
    ensures meant { Exactly result (view_of P.Piece.meaning piece.new) (seated (names_of P.Piece.meaning piece.old) (view_of P.Piece.meaning piece.old) worker command) }
{
    piece.keeps_meaning();
    piece.seat(worker, command)
}

// A Step, by its meaning.
fn step_meant<P: Piece>(piece: &mut P, worker: usize) -> Result<StepAnswer, Refusal>
    ensures names { names_of P.Piece.meaning piece.new ≡ names_of P.Piece.meaning piece.old }
    ensures meant { Stepped (names_of P.Piece.meaning piece.old) (view_of P.Piece.meaning piece.old) worker result (view_of P.Piece.meaning piece.new) }
{
    piece.keeps_meaning();
    piece.step(worker)
}

// A Take, by its meaning.
fn take_meant<P: Piece>(piece: &mut P, worker: usize) -> Result<Reply<P::Element>, Refusal>
    ensures { Exactly result (view_of P.Piece.meaning piece.new) (taken (names_of P.Piece.meaning piece.old) (view_of P.Piece.meaning piece.old) worker) }
{
    piece.keeps_meaning();
    piece.take(worker)
}

// Whether a Step was answered with the end of its try.
fn ends(answer: Result<StepAnswer, Refusal>) -> bool
    ensures { result ≡ ended_by answer }
{
    matches!(answer, Ok(StepAnswer::Ended) | Ok(StepAnswer::SettledEnded))
}

// Makes accesses for the worker's command, which no try has begun on, until its try has ended: all of them together are
// one that settles and ends it.
fn finish<P: Piece>(piece: &mut P, worker: usize)
    ensures names { names_of P.Piece.meaning piece.new ≡ names_of P.Piece.meaning piece.old }
    ensures view { Finished (names_of P.Piece.meaning piece.old) (view_of P.Piece.meaning piece.old) worker (view_of P.Piece.meaning piece.new) }
{
    piece.keeps_meaning();
    // The range counts accesses, and is no index.
    for _access in 0..piece.longest() {
        if ends(step_meant(piece, worker)) {
            return;
        }
    }
}

// Seats a command, steps until its try has ended, and takes the reply, with no other call in between. On every piece
// this does what the ordinary object does.
pub fn call_alone<P: Piece>(
    piece: &mut P,
    worker: usize,
    command: Command<P::Element>,
) -> Result<Reply<P::Element>, Refusal>
    ensures { Exactly result (view_of P.Piece.meaning piece.new) (called_alone (names_of P.Piece.meaning piece.old) (view_of P.Piece.meaning piece.old) worker command) }
{
    seat_meant(piece, worker, command)?;
    finish(piece, worker);
    take_meant(piece, worker)
}
