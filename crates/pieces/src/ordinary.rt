// The ordinary objects stand in specs/; these functions do nothing, and their contracts say what is proved of them.
ghost use Rattle.std.specs.Prelude.{ℕ, ◌≤◌, List, length};
ghost use Rattle.pieces.specs.Ordinary.{OrdinaryLaw};
ghost use Rattle.pieces.specs.OrdinaryTray.{ordinary_tray};
ghost use Rattle.pieces.specs.OrdinaryTally.{ordinary_tally};

use elements::element::Element;

// An ordinary tray of k places, for every k and every kind of element, keeps the law of an ordinary object.
pub fn ordinary_tray_holds<E: Element>()
    ensures { (k : ℕ) → OrdinaryLaw (λ (xs : List E). length xs ≤ k) (ordinary_tray E.Element.kind.blank k) }
{}

// So does an ordinary tally with limit m, for every m.
pub fn ordinary_tally_holds()
    ensures { (m : ℕ) → OrdinaryLaw (λ total. total ≤ m) (ordinary_tally m) }
{}
