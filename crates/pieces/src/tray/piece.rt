// The tray as a piece. Each call says exactly what it answers and what it leaves, refused or not.
ghost use Rattle.std.specs.Prelude.{◌≡◌};
ghost use Rattle.elements.specs.Kinds.{uncompared};
ghost use Rattle.elements.specs.Outcomes.{Exactly};
ghost use Rattle.pieces.specs.TrayCalls.{seat_outcome, step_outcome, take_outcome, clear_outcome};
ghost use Rattle.pieces.specs.TrayMeaning.{tray_view, tray_meaning};
ghost use Rattle.pieces.specs.Trays.{tray_state};
ghost use Rattle.pieces.specs.Views.{workers_of};

use crate::piece::Piece;
use crate::seats::{KnownCommand, Seat, once_more};
use crate::tray::Tray;
use crate::tray::making::fill;
use crate::tray::records::TrayKind;
use elements::answers::StepAnswer;
use elements::commands::{Command, Reply};
use elements::element::Element;
use elements::refusals::Refusal;

// What an associated constant is worth is not known inside an impl with parameters, so each stands here for the constant
// and for the method that tells it.
const LONGEST: usize = 5;

const KINDS: &'static [u8] = &[1, 2];

impl<'a, E: Element> Piece for Tray<'a, E> {
    type Element = E;

    const LONGEST_TRY: usize = LONGEST;

    const COMMAND_KINDS: &'static [u8] = KINDS;

    ghost meaning = { tray_meaning E.Element.kind };

    fn keeps_meaning(&self) {}

    fn longest(&self) -> usize {
        LONGEST
    }

    fn kinds(&self) -> &'static [u8] {
        KINDS
    }

    #[tactic(auto, using(crate::proofs::Kept::counting_workers))]
    fn workers(&self) -> usize
        ensures count { result ≡ (tray_state self.now).count }
        ensures shown { result ≡ workers_of (tray_view E.Element.kind (tray_state self.now)) }
    {
        self.count
    }

    // Loads the worker's empty seat with a command. The questions are those of every piece; where the seat and the
    // seatings are kept is the tray's own, as in a Take.
    #[tactic(auto, using(crate::proofs::Kept::seating))]
    fn seat(&mut self, worker: usize, command: Command<E>) -> Result<(), Refusal>
        ensures { Exactly result (tray_state self.new) (seat_outcome (tray_state self.old) worker command) }
    {
        self.occupant(worker)?.idle()?;
        let kind = TrayKind::try_from(command.kind)?;
        self.seatings = once_more(self.seatings)?;
        self.seats[worker] = Seat::Loaded(KnownCommand {
            kind,
            element: command.element,
        });
        Ok(())
    }

    // Makes one access for the worker's command; the first of them begins a try. Which elements are the same never
    // decides: the outcome is that of elements any two of which are the same.
    fn step(&mut self, worker: usize) -> Result<StepAnswer, Refusal>
        ensures exact { Exactly result (tray_state self.new) (step_outcome E.Element.kind (tray_state self.old) worker) }
        ensures uncompared { Exactly result (tray_state self.new) (step_outcome (uncompared E.Element.kind.blank) (tray_state self.old) worker) }
    {
        self.make_access(worker)
    }

    // Empties the worker's seat and gives its reply; from a command that no try has begun on, code 9 and the blank.
    #[tactic(auto, using(crate::proofs::Kept::taking))]
    fn take(&mut self, worker: usize) -> Result<Reply<E>, Refusal>
        ensures { Exactly result (tray_state self.new) (take_outcome E.Element.kind (tray_state self.old) worker) }
    {
        let reply = self.occupant(worker)?.reply()?;
        self.seats[worker] = Seat::Empty;
        Ok(reply)
    }

    // Empties every worker's seat.
    fn clear(&mut self)
        ensures { tray_state self.new ≡ clear_outcome (tray_state self.old) }
    {
        let count = self.count;
        fill(self.seats, count, Seat::Empty);
    }
}
