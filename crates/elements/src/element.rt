// An element kind, and the three of them.
ghost use Rattle.std.specs.Prelude.{◌≡◌, true};
ghost use Rattle.elements.specs.Kinds.{ElementKind, bin_kind, amount_kind, slip_kind, same_bin, same_amount, same_slip};

use crate::kinds::{Amount, Bin, Slip};

// What a shared object may hold: it has a blank value, and tells whether two elements are the same.
pub trait Element: Copy {
    ghost kind: { ElementKind Self };

    fn blank() -> Self
        ensures { result ≡ kind.blank };

    fn same(self, other: Self) -> bool
        ensures { result ≡ kind.same self other };

    ghost reflexive: { (x : Self) → kind.same x x ≡ true };
}

impl Element for Bin {
    ghost kind = { bin_kind };

    ghost reflexive = { same_bin };

    fn blank() -> Bin {
        Bin { number: 0 }
    }

    fn same(self, bin: Bin) -> bool {
        self == bin
    }
}

impl Element for Amount {
    ghost kind = { amount_kind };

    ghost reflexive = { same_amount };

    fn blank() -> Amount {
        Amount { units: 0 }
    }

    fn same(self, amount: Amount) -> bool {
        self == amount
    }
}

impl Element for Slip {
    ghost kind = { slip_kind };

    ghost reflexive = { same_slip };

    fn blank() -> Slip {
        Slip {
            batch: 0,
            total: 0,
            station: 0,
        }
    }

    // Not equality: the batch alone decides.
    fn same(self, other: Slip) -> bool {
        self.batch == other.batch
    }
}
