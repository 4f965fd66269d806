// One access of a worker's try.
ghost use Rattle.std.specs.Prelude.{◌≡◌, ℕ, ◌<◌, List, length, Ok, slice_set};
ghost use Rattle.pieces.specs.TrayKinds.{TraySeat};
ghost use Rattle.pieces.specs.declared.seats.Seat.TheVariants.{Running};
ghost use Rattle.elements.specs.Kinds.{uncompared};
ghost use Rattle.elements.specs.Outcomes.{Exactly};
ghost use Rattle.pieces.specs.Seats.{seat_at};
ghost use Rattle.pieces.specs.TrayAccess.{accessed};
ghost use Rattle.pieces.specs.TrayBounds.{Reachable};
ghost use Rattle.pieces.specs.TrayCalls.{step_outcome};
ghost use Rattle.pieces.specs.TrayStates.{state_of};
ghost use Rattle.pieces.specs.Trays.{tray_state};

use crate::refusals::refuse;
use crate::seats::Seat;
use crate::tray::Tray;
use crate::tray::accesses::*;
use crate::tray::records::{Cell, Head, Phase, TraySeat};
use elements::answers::StepAnswer;
use elements::element::Element;
use elements::refusals::{Cause, Refusal};

// The next access of a try under way, in strips of `room` places: what it answers, and what the worker's seat is then. Each
// case writes the seat, since one place that wrote it for all of them made a Step slower.
fn go_on<E: Element>(
    cells: &mut [Cell<E>],
    heads: &mut [Head<E>],
    room: usize,
    seat: &mut TraySeat<E>,
    phase: Phase<E>,
) -> StepAnswer
    requires { Reachable room cells.old heads.old (Running phase) }
    ensures { (qs : List (TraySeat E)) (i g n : ℕ) → (Ok result, state_of cells.new heads.new (slice_set qs i seat.new) g room n) ≡ accessed E.Element.kind (state_of cells.old heads.old qs g room n) i (Running phase) }
{
    // One step for each case of a closed list, which carries what the step needs.
    match phase {
        Phase::HeadRead(attempt) => {
            let element = read_element(cells, attempt.head.index);
            *seat = Seat::Running(Phase::CellRead(attempt, element));
            StepAnswer::Moved
        }
        Phase::CellRead(attempt, element) => {
            let (answer, after) = help(cells, room, attempt, element);
            *seat = after;
            answer
        }
        Phase::CellWritten(attempt) => {
            let next = read_neighbour(cells, attempt);
            *seat = Seat::Running(Phase::NeighbourRead(attempt, next));
            StepAnswer::Moved
        }
        Phase::NeighbourRead(attempt, next) => {
            let (answer, after) = move_head(heads, attempt, next);
            *seat = after;
            answer
        }
    }
}

// The next access of the worker's try, in the strips of a tray of `room` places.
pub(super) fn access<E: Element>(
    cells: &mut [Cell<E>],
    heads: &mut [Head<E>],
    seats: &mut [TraySeat<E>],
    room: usize,
    worker: usize,
) -> Result<StepAnswer, Refusal>
    requires seat { worker < length seats.old }
    requires strips { Reachable room cells.old heads.old (seat_at seats.old worker) }
    ensures { (g n : ℕ) → Exactly result (state_of cells.new heads.new seats.new g room n) (accessed E.Element.kind (state_of cells.old heads.old seats.old g room n) worker (seat_at seats.old worker)) }
{
    match seats[worker] {
        Seat::Loaded(command) => {
            let (answer, after) = begin(heads, room, command);
            seats[worker] = after;
            Ok(answer)
        }
        Seat::Running(phase) => Ok(go_on(cells, heads, room, &mut seats[worker], phase)),
        Seat::Empty | Seat::Ended(_) => refuse(Cause::NothingToStep),
    }
}

impl<'a, E: Element> Tray<'a, E> {
    // A Step. It stands here and not in the tray's `impl Piece`, so that an edit there is refused by what a Step ensures.
    pub(super) fn make_access(&mut self, worker: usize) -> Result<StepAnswer, Refusal>
        ensures exact { Exactly result (tray_state self.new) (step_outcome E.Element.kind (tray_state self.old) worker) }
        ensures uncompared { Exactly result (tray_state self.new) (step_outcome (uncompared E.Element.kind.blank) (tray_state self.old) worker) }
    {
        self.occupant(worker)?;
        let room = self.room;
        access(self.cells, self.heads, self.seats, room, worker)
    }
}
