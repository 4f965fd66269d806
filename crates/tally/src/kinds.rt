// The command kinds of a tally, and their numbers.
ghost use Rattle.std.specs.Prelude.{◌≡◌};
ghost use Rattle.tally.specs.TallyKinds.{tally_kind_number, tally_kind_of};

use crate::records::TallyKind;
use elements::refusals::{Cause, Refusal};
use pieces::refusals::refuse;

impl From<TallyKind> for u8 {
    ghost from_gives = { λ k n. n ≡ tally_kind_number k };

    fn from(kind: TallyKind) -> u8 {
        match kind {
            TallyKind::Add => 1,
            TallyKind::Read => 2,
        }
    }
}

impl TryFrom<u8> for TallyKind {
    type Error = Refusal;

    ghost try_from_gives = { λ n r. r ≡ tally_kind_of n };

    fn try_from(number: u8) -> Result<TallyKind, Refusal> {
        match number {
            1 => Ok(TallyKind::Add),
            2 => Ok(TallyKind::Read),
            _ => refuse(Cause::UnknownKind),
        }
    }
}
