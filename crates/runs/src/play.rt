// Plays any list of calls of a tray.
ghost use Rattle.std.specs.Prelude.{◌≡◌};
ghost use Rattle.elements.specs.Outcomes.{Exactly};
ghost use Rattle.pieces.specs.Trays.{tray_state};
ghost use Rattle.pieces.specs.TrayAccess.{neighbour};
ghost use Rattle.pieces.specs.TrayCalls.{step_outcome};
ghost use Rattle.runs.specs.Events.{access_number, touched_at, touched, access_told, step_of, performed, Played};

use crate::events::{Access, Call, Event, Step, Touched};
use elements::element::Element;
use elements::refusals::Refusal;
use pieces::piece::Piece;
use pieces::seats::Seat;
use pieces::tray::Tray;
use pieces::tray::records::{Phase, TrayKind, TraySeat, Try};
use std::alloc::{AllocError, Global};

// Which access a seat makes next, 1 to 5; 0, which is never told, for one that makes none, whose Step is refused.
fn access_number<E: Element>(seat: Option<TraySeat<E>>) -> u8
    ensures { result ≡ access_number seat }
{
    match seat {
        Some(Seat::Loaded(_)) => 1,
        Some(Seat::Running(Phase::HeadRead(_))) => 2,
        Some(Seat::Running(Phase::CellRead(_, _))) => 3,
        Some(Seat::Running(Phase::CellWritten(_))) => 4,
        Some(Seat::Running(Phase::NeighbourRead(_, _))) => 5,
        _ => 0,
    }
}

fn cell_at<E: Element>(tray: &Tray<E>, index: usize) -> Option<Touched<E>>
    ensures { result ≡ touched_at E.Element.kind.blank (tray_state tray.now) index }
{
    tray.cell(index).map(|cell| Touched { index, cell })
}

// The cell that a push makes the top, or else the one that a pop does, as the tray has it now.
fn neighbour_of<E: Element>(tray: &Tray<E>, attempt: Try<E>) -> Option<Touched<E>>
    ensures { result ≡ touched_at E.Element.kind.blank (tray_state tray.now) (neighbour attempt) }
{
    let index = attempt.head.index;
    match attempt.command.kind {
        TrayKind::Push => cell_at(tray, index.checked_add(1)?),
        TrayKind::Pop => cell_at(tray, index.saturating_sub(1)),
    }
}

// The cell that a seat's next access touches, as the tray has it now.
fn touched_by<E: Element>(tray: &Tray<E>, seat: Option<TraySeat<E>>) -> Option<Touched<E>>
    ensures { result ≡ touched E.Element.kind.blank (tray_state tray.now) seat }
{
    match seat {
        Some(Seat::Running(Phase::HeadRead(attempt) | Phase::CellRead(attempt, _))) => {
            cell_at(tray, attempt.head.index)
        }
        Some(Seat::Running(Phase::CellWritten(attempt))) => neighbour_of(tray, attempt),
        _ => None,
    }
}

// The access that a Step makes.
fn access<E: Element>(tray: &mut Tray<E>, worker: usize) -> Result<Access<E>, Refusal>
    ensures answer { result ≡ access_told E.Element.kind (tray_state tray.old) worker }
    ensures left { tray_state tray.new ≡ (step_outcome E.Element.kind (tray_state tray.old) worker).1 }
{
    let seat = tray.seat_of(worker);
    let answer = tray.step(worker)?;
    Ok(Access {
        number: access_number(seat),
        answer,
        touched: touched_by(tray, seat),
    })
}

// One Step.
fn step<E: Element>(tray: &mut Tray<E>, worker: usize) -> Step<E>
    ensures answer { result ≡ step_of E.Element.kind (tray_state tray.old) worker }
    ensures left { tray_state tray.new ≡ (step_outcome E.Element.kind (tray_state tray.old) worker).1 }
{
    let access = access(tray, worker);
    Step {
        worker,
        head: tray.head(),
        access,
    }
}

// One call.
pub fn perform<E: Element>(tray: &mut Tray<E>, call: Call<E>) -> Event<E>
    ensures { Exactly result (tray_state tray.new) (performed E.Element.kind (tray_state tray.old) call) }
{
    match call {
        Call::Seat(worker, command) => Event::Seated(worker, command, tray.seat(worker, command)),
        Call::Step(worker) => Event::Stepped(step(tray, worker)),
        Call::Take(worker) => Event::Taken(worker, tray.take(worker)),
    }
}

// Plays the calls one after another and gives what took place. If there is no memory for that, nothing is played.
pub fn play<E: Element>(
    heap: Global,
    tray: &mut Tray<E>,
    calls: &[Call<E>],
) -> Result<Vec<Event<E>>, AllocError>
    ensures { Played E.Element.kind (tray_state tray.old) calls.now result (tray_state tray.new) }
{
    let mut events = Vec::with_capacity(heap, calls.len())?;
    for call in calls {
        let event = perform(tray, *call);
        events.push_reserved(event);
    }
    Ok(events)
}
