// What no run of a tray brings back. The function does nothing; its contract says what is proved.
ghost use Rattle.pieces.specs.Trays.{tray_state};
ghost use Rattle.runs.specs.NoReturn.{NoReturn};

use elements::element::Element;
use pieces::tray::Tray;

// In every run from this tray on, whoever makes which calls, the head never has a pair of index and tick again that it
// has left, and the ticks of cells only grow.
pub fn nothing_returns<E: Element>(tray: &Tray<E>)
    ensures { NoReturn E.Element.kind (tray_state tray.now) }
{}
