// The accesses of a try, each to one strip.
ghost use Rattle.std.specs.Prelude.{◌≡◌, ◌+◌, ◌<◌, ◌≤◌, length, pos, negsuc, ◌≤ℤ◌, if◌then◌else◌, ◌≢◌, slice_set};
ghost use Rattle.pieces.specs.declared.seats.Seat.TheVariants.{Loaded, Running, Ended};
ghost use Rattle.pieces.specs.declared.tray.records.Phase.TheVariants.{HeadRead, CellRead, CellWritten, NeighbourRead};
ghost use Rattle.elements.specs.declared.answers.StepAnswer.TheVariants.{Moved, Settled, SettledEnded, Ended as AnsweredEnd, StoodOff};
ghost use Rattle.pieces.specs.TrayStates.{cell_at, head_of};
ghost use Rattle.pieces.specs.TrayAccess.{at_limit, neighbour, limit_reply, done_reply, helped_cells, next_of, unchanged, moved_head};

use crate::seats::Seat;
use crate::tray::records::{Cell, Head, Next, Phase, TrayCommand, TrayKind, TraySeat, Try};
use elements::answers::StepAnswer;
use elements::commands::{Code, Reply};
use elements::element::Element;

// Whether a tray of `room` places with this head is full for a push, or empty for a pop.
fn limits<E: Element>(room: usize, head: Head<E>, command: TrayCommand<E>) -> bool
    ensures { result ≡ at_limit room head command }
{
    match command.kind {
        TrayKind::Push => head.index == room,
        TrayKind::Pop => head.index == 0,
    }
}

// The head as it stands, read field by field.
pub(super) fn read_head<E: Element>(heads: &[Head<E>]) -> Head<E>
    requires { 0 < length heads.now }
    ensures { result ≡ head_of E.Element.kind.blank heads.now }
{
    Head {
        index: heads[0].index,
        element: heads[0].element,
        tick: heads[0].tick,
    }
}

// Access 1: reads the head.
pub(super) fn begin<E: Element>(
    heads: &[Head<E>],
    room: usize,
    command: TrayCommand<E>,
) -> (StepAnswer, TraySeat<E>)
    requires { 0 < length heads.now }
    ensures { result ≡ (if at_limit room (head_of E.Element.kind.blank heads.now) command then Settled else Moved, Running (HeadRead (record { command = command; head = head_of E.Element.kind.blank heads.now }))) }
{
    let head = read_head(heads);
    let answer = if limits(room, head, command) {
        StepAnswer::Settled
    } else {
        StepAnswer::Moved
    };
    (
        answer,
        Seat::Running(Phase::HeadRead(Try { command, head })),
    )
}

// Access 2: reads the element of a cell.
pub(super) fn read_element<E: Element>(cells: &[Cell<E>], index: usize) -> E
    requires { index < length cells.now }
    ensures { result ≡ (cell_at E.Element.kind.blank cells.now index).element }
{
    cells[index].element
}

// Access 3 helps: if the cell is as access 2 read it, and one tick behind the top that the try saw, the top is written
// into it.
fn write_cell<E: Element>(cells: &mut [Cell<E>], attempt: Try<E>, element: E)
    requires index { attempt.head.index < length cells.old }
    requires tick { negsuc 0 ≤ℤ attempt.head.tick }
    ensures { cells.new ≡ helped_cells E.Element.kind cells.old attempt element }
{
    let index = attempt.head.index;
    let tick = cells[index].tick;
    let held = cells[index].element;
    if tick == attempt.head.tick - 1 && held.same(element) {
        cells[index] = Cell {
            element: attempt.head.element,
            tick: attempt.head.tick,
        };
    }
}

// Access 3; a try that found the tray at its limit ends with it.
pub(super) fn help<E: Element>(
    cells: &mut [Cell<E>],
    room: usize,
    attempt: Try<E>,
    element: E,
) -> (StepAnswer, TraySeat<E>)
    requires index { attempt.head.index < length cells.old }
    requires tick { negsuc 0 ≤ℤ attempt.head.tick }
    ensures after { result ≡ (if at_limit room attempt.head attempt.command then (AnsweredEnd, Ended (limit_reply E.Element.kind attempt.command)) else (Moved, Running (CellWritten attempt))) }
    ensures cells { cells.new ≡ helped_cells E.Element.kind cells.old attempt element }
{
    write_cell(cells, attempt, element);
    if limits(room, attempt.head, attempt.command) {
        (StepAnswer::Ended, Seat::Ended(limit_reply(attempt.command)))
    } else {
        (
            StepAnswer::Moved,
            Seat::Running(Phase::CellWritten(attempt)),
        )
    }
}

// Access 4: reads the cell that the try will make the top.
pub(super) fn read_neighbour<E: Element>(cells: &[Cell<E>], attempt: Try<E>) -> Next<E>
    requires within { neighbour attempt < length cells.now }
    requires apart { neighbour attempt ≢ attempt.head.index }
    ensures { result ≡ next_of E.Element.kind cells.now attempt }
{
    let index = attempt.head.index;
    match attempt.command.kind {
        TrayKind::Push => Next {
            element: attempt.command.element,
            tick: cells[index + 1].tick,
        },
        TrayKind::Pop => Next {
            element: cells[index - 1].element,
            tick: cells[index - 1].tick,
        },
    }
}

// Whether the head is still as the try saw it: an access reads field by field, and elements need only be the same.
fn stands<E: Element>(heads: &[Head<E>], attempt: Try<E>) -> bool
    requires { 0 < length heads.now }
    ensures { result ≡ unchanged E.Element.kind (head_of E.Element.kind.blank heads.now) attempt }
{
    let seen = attempt.head;
    heads[0].index == seen.index
        && heads[0].tick == seen.tick
        && heads[0].element.same(seen.element)
}

// Access 5: moves the head, if it is still as the try saw it; if it is not, the try is stood off.
pub(super) fn move_head<E: Element>(
    heads: &mut [Head<E>],
    attempt: Try<E>,
    next: Next<E>,
) -> (StepAnswer, TraySeat<E>)
    requires long { 0 < length heads.old }
    requires index { attempt.head.index ≤ 1024 }
    requires apart { neighbour attempt ≢ attempt.head.index }
    requires tick { next.tick ≤ℤ pos 4000000000 }
    ensures after { result ≡ (if unchanged E.Element.kind (head_of E.Element.kind.blank heads.old) attempt then (SettledEnded, Ended (done_reply E.Element.kind attempt)) else (StoodOff, Loaded attempt.command)) }
    ensures heads { heads.new ≡ (if unchanged E.Element.kind (head_of E.Element.kind.blank heads.old) attempt then slice_set heads.old 0 (moved_head E.Element.kind attempt next) else heads.old) }
{
    if !stands(heads, attempt) {
        return (StepAnswer::StoodOff, Seat::Loaded(attempt.command));
    }
    let index = match attempt.command.kind {
        TrayKind::Push => attempt.head.index + 1,
        TrayKind::Pop => attempt.head.index - 1,
    };
    heads[0] = Head {
        index,
        element: next.element,
        tick: next.tick + 1,
    };
    (StepAnswer::SettledEnded, Seat::Ended(done_reply(attempt)))
}

// The reply of a try that found the tray at its limit.
fn limit_reply<E: Element>(command: TrayCommand<E>) -> Reply<E>
    ensures { result ≡ limit_reply E.Element.kind command }
{
    match command.kind {
        TrayKind::Push => Reply::new(Code::Full, E::blank()),
        TrayKind::Pop => Reply::new(Code::Empty, E::blank()),
    }
}

// The reply of a try that moved the head.
fn done_reply<E: Element>(attempt: Try<E>) -> Reply<E>
    ensures { result ≡ done_reply E.Element.kind attempt }
{
    match attempt.command.kind {
        TrayKind::Push => Reply::new(Code::Done, E::blank()),
        TrayKind::Pop => Reply::new(Code::Popped, attempt.head.element),
    }
}
