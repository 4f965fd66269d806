// Access 1 of a try, and a seat whose try has ended.
ghost use Rattle.std.specs.Prelude.{◌≡◌};
ghost use Rattle.elements.specs.Codes.{reply};
ghost use Rattle.tally.specs.TallyCalls.{passes, pair_read};

use crate::records::{Pair, PairRead, TallyCommand, TallyKind, TallySeat};
use elements::answers::StepAnswer;
use elements::commands::{Code, Reply};
use elements::kinds::Amount;
use pieces::seats::Seat;

// Whether an add of this amount would pass the limit.
fn over(limit: u32, total: u32, amount: Amount) -> bool
    ensures { result ≡ passes limit total amount }
{
    u64::from(limit) < u64::from(total) + u64::from(amount.units)
}

// A try that ended with this reply.
pub(crate) fn ended(code: Code, units: u32) -> TallySeat
    ensures { result ≡ Seat.Ended (reply code (record { units = units })) }
{
    Seat::Ended(Reply::new(code, Amount { units }))
}

// Access 1: what it answers, and what the seat then holds, for a command that finds this pair.
pub(crate) fn read_pair(limit: u32, pair: Pair, command: TallyCommand) -> (StepAnswer, TallySeat)
    ensures { result ≡ pair_read limit pair command.kind command.element }
{
    let amount = command.element;
    match command.kind {
        TallyKind::Read => (StepAnswer::SettledEnded, ended(Code::Total, pair.total)),
        TallyKind::Add if over(limit, pair.total, amount) => {
            (StepAnswer::SettledEnded, ended(Code::Over, 0))
        }
        TallyKind::Add => (StepAnswer::Moved, Seat::Running(PairRead { amount, pair })),
    }
}
