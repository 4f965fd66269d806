// Making a tray in its strips.
ghost use Rattle.std.specs.Prelude.{◌≡◌, ◌<◌, ◌≤◌, length};
ghost use Rattle.pieces.specs.TrayCalls.{enough, filled, new_cells, new_heads};

use crate::tray::records::{Cell, Head, TraySeat};
use elements::element::Element;

// Whether strips of these lengths hold a tray.
pub(super) fn hold_tray<E: Element>(
    cells: &[Cell<E>],
    heads: &[Head<E>],
    seats: &[TraySeat<E>],
) -> bool
    ensures { result ≡ enough cells.now heads.now seats.now }
{
    cells.len() > 1 && heads.len() > 0 && seats.len() > 0
}

// Writes the same value into the first `count` places of a strip. It takes the whole strip, since under the tray's
// `&mut self` a part of one cannot be lent.
pub(super) fn fill<A: Copy>(strip: &mut [A], count: usize, value: A)
    requires { count ≤ length strip.old }
    ensures { strip.new ≡ filled count value strip.old }
{
    strip[..count].fill_with(|| value);
}

// The cells of a new tray with `room` places.
pub(super) fn make_cells<E: Element>(cells: &mut [Cell<E>], room: usize)
    requires { room < length cells.old }
    ensures { cells.new ≡ new_cells E.Element.kind room cells.old }
{
    let element = E::blank();
    fill(cells, room + 1, Cell { element, tick: 0 });
    cells[0] = Cell { element, tick: -1 };
}

// The head of a new tray.
pub(super) fn make_head<E: Element>(heads: &mut [Head<E>])
    requires { 0 < length heads.old }
    ensures { heads.new ≡ new_heads E.Element.kind heads.old }
{
    heads[0] = Head {
        index: 0,
        element: E::blank(),
        tick: 0,
    };
}
