// The tally: a running total up to a limit, which up to sixteen workers use at once, one access at a time.
#![tactic(auto)]

ghost use Rattle.tally.specs.TallySound.{Sound};

use crate::records::{Pair, TallySeat};

mod accesses;
mod calls;
mod kinds;
pub mod piece;
pub mod records;

// A tally: its total is at most `limit`, and its workers have the first `count` seats. Every tally is sound: its tick
// never passes the number of seatings, and a try that remembers the tick of now remembers the total of now.
// The table is of fixed size, for sixteen workers, since a piece uses no heap.
#[derive(Drop)]
pub struct Tally {
    pair: Pair,
    seats: [TallySeat; 16],
    seatings: u32,
    limit: u32,
    count: usize,
    ghost sound: { ∥ Sound (record { pair = pair; seats = seats; seatings = seatings; limit = limit; count = count }) ∥₁ },
}
