// Making a tray, showing it, and finding the seat of a worker.
ghost use Rattle.std.specs.Prelude.{◌≡◌, []};
ghost use Rattle.pieces.specs.TrayCalls.{made_tray};
ghost use Rattle.pieces.specs.TrayShown.{shown_head, shown_cell, shown_seat};
ghost use Rattle.pieces.specs.TrayStates.{tray_content};
ghost use Rattle.pieces.specs.Seats.{occupant};
ghost use Rattle.pieces.specs.Trays.{tray_state};

use crate::seats::{Seat, occupant};
use crate::tray::Tray;
use crate::tray::accesses::read_head;
use crate::tray::making::{fill, hold_tray, make_cells, make_head};
use crate::tray::records::{Cell, Head, TraySeat};
use elements::element::Element;
use elements::refusals::Refusal;

impl<'a, E: Element> Tray<'a, E> {
    // An empty tray in three strips. With at least two cells, one head and one seat it has a place for each cell but
    // the first, at most 1,024, and a worker for each seat, at most 16. In shorter strips it has no worker, and
    // nothing is written, then or later.
    #[tactic(auto, using(crate::proofs::Making::made_kept))]
    pub fn new(
        cells: &'a mut [Cell<E>],
        heads: &'a mut [Head<E>],
        seats: &'a mut [TraySeat<E>],
    ) -> Tray<'a, E>
        ensures made { tray_state result ≡ made_tray E.Element.kind cells.old heads.old seats.old }
        ensures empty { tray_content E.Element.kind.blank (tray_state result) ≡ [] }
    {
        if !hold_tray(cells, heads, seats) {
            return Tray {
                cells,
                heads,
                seats,
                seatings: 0,
                room: 1,
                count: 0,
            };
        }
        let room = (cells.len() - 1).min(1024);
        let count = seats.len().min(16);
        make_cells(cells, room);
        make_head(heads);
        fill(seats, count, Seat::Empty);
        Tray {
            cells,
            heads,
            seats,
            seatings: 0,
            room,
            count,
        }
    }

    // The head as it is now, in a tray with workers. This and the next two are for whoever shows a tray; they are no
    // accesses of a try.
    pub fn head(&self) -> Option<Head<E>>
        ensures { result ≡ shown_head E.Element.kind.blank (tray_state self.now) }
    {
        (self.count > 0).then(|| read_head(self.heads))
    }

    // One of its cells as it is now, from 0 to the number of places: two conditions, and a place that is then there.
    pub fn cell(&self, index: usize) -> Option<Cell<E>>
        ensures { result ≡ shown_cell E.Element.kind.blank (tray_state self.now) index }
    {
        if self.count > 0 && index <= self.room {
            self.cells.get(index).copied()
        } else {
            None
        }
    }

    // A worker's seat as it is now.
    pub fn seat_of(&self, worker: usize) -> Option<TraySeat<E>>
        ensures { result ≡ shown_seat (tray_state self.now) worker }
    {
        self.occupant(worker).ok()
    }

    // The worker's seat, if there is such a worker. Under `&mut self` a strip cannot be lent to be read.
    #[tactic(auto, using(crate::proofs::Kept::occupant_is))]
    pub(super) fn occupant(&self, worker: usize) -> Result<TraySeat<E>, Refusal>
        ensures { result ≡ occupant (tray_state self.now).count (tray_state self.now).seats worker }
    {
        occupant(&self.seats[..self.count], worker)
    }
}
