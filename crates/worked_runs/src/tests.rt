// What the tests share. Kinds, codes and answers are written as the rules number them.
use elements::commands::{Command, Reply};
use elements::kinds::Bin;
use elements::refusals::{Cause, Layer, Refusal};
use pieces::piece::Piece;
use pieces::tray::records::{Cell, Head};
use std::process::Abort;
use std::test::Fail;

mod any_piece;
mod tray;

fn bin(number: u16) -> Bin {
    Bin { number }
}

fn cell<E>(element: E, tick: i64) -> Cell<E> {
    Cell { element, tick }
}

fn head<E>(index: usize, element: E, tick: i64) -> Head<E> {
    Head {
        index,
        element,
        tick,
    }
}

fn command<E>(kind: u8, element: E) -> Command<E> {
    Command { kind, element }
}

fn reply<E>(code: u8, element: E) -> Reply<E> {
    Reply { code, element }
}

// A refusal by a piece.
fn refusal(cause: Cause) -> Refusal {
    Refusal {
        layer: Layer::Piece,
        cause,
    }
}

// A Step for each of the answers, which must be given in their order.
fn steps<P: Piece>(
    rt: &impl Abort,
    piece: &mut P,
    worker: usize,
    answers: &[u8],
) -> Result<(), Fail> {
    for answer in answers {
        let given = piece.step(worker)?;
        assert_eq!(rt; u8::from(given), *answer);
    }
    Ok(())
}
