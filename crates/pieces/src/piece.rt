// The interface of a piece. Everything above it is proved once, for every piece that keeps this meaning.
ghost use Rattle.std.specs.Prelude.{◌≡◌};
ghost use Rattle.elements.specs.Outcomes.{Exactly};
ghost use Rattle.pieces.specs.Views.{workers_of};
ghost use Rattle.pieces.specs.Meanings.{PieceMeaning, MeaningKept, names_of, view_of};

use elements::answers::StepAnswer;
use elements::commands::{Command, Reply};
use elements::element::Element;
use elements::refusals::Refusal;

// A shared object. Each of its workers has a seat, where it seats a command, makes its accesses one by one, and takes the
// reply.
pub trait Piece {
    type Element: Element;

    // w, the most accesses in one try
    const LONGEST_TRY: usize;

    // the numbers of the command kinds that it knows; each piece has an enum of its own for them
    const COMMAND_KINDS: &'static [u8];

    // its whole state, what each call makes of it exactly, and what that means
    ghost meaning: { PieceMeaning Self Self.Element };

    // Does nothing; what it ensures is what every piece owes, in every state.
    fn keeps_meaning(&self)
        ensures { MeaningKept meaning Self.Element.Element.kind.blank (meaning.model self.now) };

    // Tells LONGEST_TRY.
    fn longest(&self) -> usize
        ensures { result ≡ (names_of meaning self.now).longest };

    // Tells COMMAND_KINDS.
    fn kinds(&self) -> &'static [u8]
        ensures { result.now ≡ (names_of meaning self.now).kinds };

    // Tells n.
    fn workers(&self) -> usize
        ensures { result ≡ workers_of (view_of meaning self.now) };

    // Loads the worker's empty seat with a command.
    fn seat(&mut self, worker: usize, command: Command<Self::Element>) -> Result<(), Refusal>
        ensures { Exactly result (meaning.model self.new) (meaning.calls.seat (meaning.model self.old) worker command) };

    // Makes one access for the worker's command; the first of them begins a try.
    fn step(&mut self, worker: usize) -> Result<StepAnswer, Refusal>
        ensures { Exactly result (meaning.model self.new) (meaning.calls.step (meaning.model self.old) worker) };

    // Empties the worker's seat and gives its reply; from a command that no try has begun on, code 9 and the blank.
    fn take(&mut self, worker: usize) -> Result<Reply<Self::Element>, Refusal>
        ensures { Exactly result (meaning.model self.new) (meaning.calls.take (meaning.model self.old) worker) };

    // Empties every worker's seat.
    fn clear(&mut self)
        ensures { meaning.model self.new ≡ meaning.calls.clear (meaning.model self.old) };
}
