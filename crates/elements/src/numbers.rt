// The numbers that the rules give to answers, reply codes and causes.
ghost use Rattle.std.specs.Prelude.{◌≡◌};
ghost use Rattle.elements.specs.Answers.{answer_number};
ghost use Rattle.elements.specs.Codes.{code_number};
ghost use Rattle.elements.specs.Refusals.{cause_number, asks};

use crate::answers::StepAnswer;
use crate::commands::Code;
use crate::refusals::{Cause, Layer};

impl From<StepAnswer> for u8 {
    ghost from_gives = { λ x n. n ≡ answer_number x };

    fn from(answer: StepAnswer) -> u8 {
        match answer {
            StepAnswer::Moved => 1,
            StepAnswer::Settled => 2,
            StepAnswer::SettledEnded => 3,
            StepAnswer::Ended => 4,
            StepAnswer::StoodOff => 5,
        }
    }
}

impl From<Code> for u8 {
    ghost from_gives = { λ x n. n ≡ code_number x };

    fn from(code: Code) -> u8 {
        match code {
            Code::Done => 1,
            Code::Full => 2,
            Code::Popped => 3,
            Code::Empty => 4,
            Code::Added => 5,
            Code::Over => 6,
            Code::Total => 7,
            Code::StoodOff => 9,
        }
    }
}

impl From<Cause> for u8 {
    ghost from_gives = { λ x n. n ≡ cause_number x };

    fn from(cause: Cause) -> u8 {
        match cause {
            Cause::NoSuchWorker => 1,
            Cause::NotIdle => 2,
            Cause::UnknownManner => 3,
            Cause::UnknownKind => 4,
            Cause::NoSeatingsLeft => 5,
            Cause::NothingToStep => 6,
            Cause::NothingToTake => 7,
            Cause::NotAway => 8,
            Cause::NotWaiting => 9,
            Cause::NotInside => 10,
            Cause::SheetTooLong => 11,
            Cause::RecordCutShort => 12,
            Cause::RecordWithoutKind => 13,
            Cause::UnknownRecordKind => 14,
            Cause::SetupMisplaced => 15,
            Cause::WrongBodyLength => 16,
            Cause::UnknownSetup => 17,
        }
    }
}

impl Layer {
    // Whether this layer asks the question with this number, which may be any: some are no question at all.
    pub fn asks(self, number: u8) -> bool
        ensures { result ≡ asks self number }
    {
        match self {
            Layer::Bay => matches!(number, 1 | 2 | 3 | 6 | 7),
            Layer::Piece => matches!(number, 1 | 2 | 4 | 5 | 6 | 7),
            Layer::Door => matches!(number, 1 | 8 | 9 | 10),
            Layer::Sheet => 11 <= number && number <= 17,
        }
    }
}
