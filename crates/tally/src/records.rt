// What a tally holds.
use elements::kinds::Amount;
use pieces::seats::{KnownCommand, Seat};

// The command kinds of a tally.
#[derive(Clone, Copy, PartialEq, Eq, Debug)]
pub enum TallyKind {
    Add,
    Read,
}

// A command that a tally knows.
pub type TallyCommand = KnownCommand<TallyKind, Amount>;

// What all workers share: the total, and the tick, which grows with every add.
#[derive(Clone, Copy, PartialEq, Eq, Debug)]
pub struct Pair {
    pub total: u32,
    pub tick: i64,
}

// What an add that fits remembers between its two accesses: its amount, and the pair as access 1 read it.
#[derive(Clone, Copy)]
pub struct PairRead {
    pub amount: Amount,
    pub pair: Pair,
}

// The seat of one worker of a tally.
pub type TallySeat = Seat<TallyKind, Amount, PairRead>;
