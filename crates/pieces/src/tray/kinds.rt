// The command kinds of a tray, and their numbers.
ghost use Rattle.std.specs.Prelude.{◌≡◌};
ghost use Rattle.pieces.specs.TrayKinds.{tray_kind_number, tray_kind_of, push, pop};

use crate::refusals::refuse;
use crate::tray::records::TrayKind;
use elements::commands::Command;
use elements::element::Element;
use elements::refusals::{Cause, Refusal};

impl From<TrayKind> for u8 {
    ghost from_gives = { λ k n. n ≡ tray_kind_number k };

    fn from(kind: TrayKind) -> u8 {
        match kind {
            TrayKind::Push => 1,
            TrayKind::Pop => 2,
        }
    }
}

// The kind with a number, or the refusal of a tray that knows no such kind.
impl TryFrom<u8> for TrayKind {
    type Error = Refusal;

    ghost try_from_gives = { λ n r. r ≡ tray_kind_of n };

    fn try_from(number: u8) -> Result<TrayKind, Refusal> {
        match number {
            1 => Ok(TrayKind::Push),
            2 => Ok(TrayKind::Pop),
            _ => refuse(Cause::UnknownKind),
        }
    }
}

// A push of an element.
pub fn push<E: Element>(element: E) -> Command<E>
    ensures { result ≡ push element }
{
    Command {
        kind: u8::from(TrayKind::Push),
        element,
    }
}

// A pop; its element is the blank.
pub fn pop<E: Element>() -> Command<E>
    ensures { result ≡ pop E.Element.kind.blank }
{
    Command {
        kind: u8::from(TrayKind::Pop),
        element: E::blank(),
    }
}
