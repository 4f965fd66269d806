// The tally as a piece.
ghost use Rattle.elements.specs.Outcomes.{Exactly};
ghost use Rattle.tally.specs.Tallies.{tally_state};
ghost use Rattle.tally.specs.TallyCalls.{seat_outcome};
ghost use Rattle.tally.specs.TallyMeaning.{tally_meaning};

use crate::Tally;
use crate::accesses::{ended, read_pair};
use crate::records::TallyKind;
use elements::answers::StepAnswer;
use elements::commands::{Code, Command, Reply};
use elements::kinds::Amount;
use elements::refusals::{Cause, Refusal};
use pieces::ordinary::ordinary_tally_holds;
use pieces::piece::Piece;
use pieces::refusals::refuse;
use pieces::seats::{KnownCommand, Seat, occupant, once_more};

impl Piece for Tally {
    type Element = Amount;

    const LONGEST_TRY: usize = 2;

    const COMMAND_KINDS: &'static [u8] = &[1, 2];

    ghost meaning = { tally_meaning };

    fn keeps_meaning(&self) {
        ordinary_tally_holds()
    }

    fn longest(&self) -> usize {
        Self::LONGEST_TRY
    }

    fn kinds(&self) -> &'static [u8] {
        Self::COMMAND_KINDS
    }

    fn workers(&self) -> usize {
        self.count
    }

    #[tactic(auto, using(crate::proofs::Soundness::loaded_kept))]
    fn seat(&mut self, worker: usize, command: Command<Amount>) -> Result<(), Refusal>
        ensures { Exactly result (tally_state self.new) (seat_outcome (tally_state self.old) worker command) }
    {
        occupant(&self.seats[..self.count], worker)?.idle()?;
        let kind = TallyKind::try_from(command.kind)?;
        let seatings = once_more(self.seatings)?;
        self.seats[worker] = Seat::Loaded(KnownCommand {
            kind,
            element: command.element,
        });
        self.seatings = seatings;
        Ok(())
    }

    #[tactic(auto, using(crate::proofs::Soundness::stepping))]
    fn step(&mut self, worker: usize) -> Result<StepAnswer, Refusal> {
        match occupant(&self.seats[..self.count], worker)? {
            Seat::Loaded(command) => {
                let (answer, after) = read_pair(self.limit, self.pair, command);
                self.seats[worker] = after;
                Ok(answer)
            }
            // Access 2 compares the pair, and sets it.
            Seat::Running(read) if self.pair == read.pair => {
                self.pair.total += read.amount.units;
                self.pair.tick += 1;
                self.seats[worker] = ended(Code::Added, self.pair.total);
                Ok(StepAnswer::SettledEnded)
            }
            Seat::Running(read) => {
                self.seats[worker] = Seat::Loaded(KnownCommand {
                    kind: TallyKind::Add,
                    element: read.amount,
                });
                Ok(StepAnswer::StoodOff)
            }
            Seat::Empty | Seat::Ended(_) => refuse(Cause::NothingToStep),
        }
    }

    #[tactic(auto, using(crate::proofs::Soundness::kept))]
    fn take(&mut self, worker: usize) -> Result<Reply<Amount>, Refusal> {
        let reply = occupant(&self.seats[..self.count], worker)?.reply()?;
        self.seats[worker] = Seat::Empty;
        Ok(reply)
    }

    fn clear(&mut self) {
        self.seats = [Seat::Empty; 16];
    }
}
