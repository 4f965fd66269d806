// Making a tally, and showing it.
ghost use Rattle.std.specs.Prelude.{◌≡◌};
ghost use Rattle.tally.specs.Tallies.{tally_state};
ghost use Rattle.tally.specs.TallyCalls.{made_tally};

use crate::Tally;
use crate::records::Pair;
use pieces::seats::Seat;

impl Tally {
    // A tally at 0 for this many workers, at most 16, with this limit, at most 1,000,000,000.
    pub fn new(count: usize, limit: u32) -> Tally
        ensures { tally_state result ≡ made_tally count limit }
    {
        Tally {
            pair: Pair { total: 0, tick: 0 },
            seats: [Seat::Empty; 16],
            seatings: 0,
            limit: limit.min(1_000_000_000),
            count: count.min(16),
        }
    }

    // The total and the tick as they are now; no access of a try.
    pub fn pair(&self) -> Pair
        ensures { result ≡ (tally_state self.now).pair }
    {
        self.pair
    }
}
