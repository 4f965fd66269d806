// The tray: a bounded abortable stack, which up to sixteen workers use at once, one access at a time.
ghost use Rattle.pieces.specs.TraySound.{Sound};
ghost use Rattle.pieces.specs.TrayStates.{state_of};

use crate::tray::records::{Cell, Head, TraySeat};
use elements::element::Element;

mod access;
mod accesses;
pub mod calls;
pub mod kinds;
mod making;
pub mod piece;
pub mod records;

// A tray in three strips that its caller lends: the cells, the head, and one seat for each worker; with `room` places
// and `count` workers, at most sixteen. Every tray is sound: no index leaves the strips, no tick passes the number of
// seatings, and what the seats remember agrees with the cells and the head.
// The strips are kept to their ends, beside `room` and `count`: what stands past these is promised too.
#[derive(Drop)]
pub struct Tray<'a, E: Element> {
    cells: &'a mut [Cell<E>],
    heads: &'a mut [Head<E>],
    seats: &'a mut [TraySeat<E>],
    seatings: u32,
    room: usize,
    count: usize,
    ghost sound: { ∥ Sound E.Element.kind.blank (state_of cells.now heads.now seats.now seatings room count) ∥₁ },
}
