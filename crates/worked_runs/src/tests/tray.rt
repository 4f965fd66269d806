// The worked runs of a tray of bins.
use super::{bin, cell, head, refusal, reply, steps};
use elements::commands::Command;
use elements::kinds::Bin;
use elements::refusals::Cause;
use pieces::piece::Piece;
use pieces::seats::{KnownCommand, Seat};
use pieces::tray::Tray;
use pieces::tray::kinds::{pop, push};
use pieces::tray::records::TrayKind;
use std::process::Abort;
use std::test::Fail;

// A whole call: its answers, and its reply.
fn call(
    rt: &impl Abort,
    tray: &mut Tray<Bin>,
    worker: usize,
    command: Command<Bin>,
    answers: &[u8],
    code: u8,
    number: u16,
) -> Result<(), Fail> {
    tray.seat(worker, command)?;
    steps(rt, tray, worker, answers)?;
    assert_eq!(rt; tray.take(worker), Ok(reply(code, bin(number))));
    Ok(())
}

const UNDISTURBED: [u8; 5] = [1, 1, 1, 1, 3];

#[test]
fn one_place_fills_and_empties(rt: HostRuntime) -> Result<(), Fail> {
    let mut cells = [cell(bin(9), 9); 2];
    let mut heads = [head(9, bin(9), 9); 1];
    let mut seats = [Seat::Empty; 2];
    let mut tray = Tray::new(&mut cells, &mut heads, &mut seats);
    call(&rt, &mut tray, 0, push(bin(7)), &UNDISTURBED, 1, 0)?;
    assert_eq!(rt; tray.head(), Some(head(1, bin(7), 1)));
    assert_eq!(rt; tray.cell(0), Some(cell(bin(0), 0)));
    assert_eq!(rt; tray.cell(1), Some(cell(bin(0), 0)));
    call(&rt, &mut tray, 0, push(bin(8)), &[2, 1, 4], 2, 0)?;
    assert_eq!(rt; tray.cell(1), Some(cell(bin(7), 1)));
    call(&rt, &mut tray, 1, pop(), &UNDISTURBED, 3, 7)?;
    assert_eq!(rt; tray.head(), Some(head(0, bin(0), 1)));
    Ok(())
}

#[test]
fn a_push_and_a_pop_stand_off_another_push(rt: HostRuntime) -> Result<(), Fail> {
    let mut cells = [cell(bin(9), 9); 3];
    let mut heads = [head(9, bin(9), 9); 1];
    let mut seats = [Seat::Empty; 2];
    let mut tray = Tray::new(&mut cells, &mut heads, &mut seats);
    tray.seat(0, push(bin(9)))?;
    steps(&rt, &mut tray, 0, &[1, 1, 1, 1])?;
    call(&rt, &mut tray, 1, push(bin(5)), &UNDISTURBED, 1, 0)?;
    call(&rt, &mut tray, 1, pop(), &UNDISTURBED, 3, 5)?;
    steps(&rt, &mut tray, 0, &[5])?;
    assert_eq!(rt; tray.head(), Some(head(0, bin(0), 1)));
    assert_eq!(rt; tray.take(0), Ok(reply(9, bin(0))));
    Ok(())
}

#[test]
fn a_late_write_finds_nothing_to_overwrite(rt: HostRuntime) -> Result<(), Fail> {
    let mut cells = [cell(bin(9), 9); 3];
    let mut heads = [head(9, bin(9), 9); 1];
    let mut seats = [Seat::Empty; 2];
    let mut tray = Tray::new(&mut cells, &mut heads, &mut seats);
    call(&rt, &mut tray, 1, push(bin(5)), &UNDISTURBED, 1, 0)?;
    assert_eq!(rt; tray.head(), Some(head(1, bin(5), 1)));
    tray.seat(0, push(bin(6)))?;
    steps(&rt, &mut tray, 0, &[1, 1])?;
    call(&rt, &mut tray, 1, pop(), &UNDISTURBED, 3, 5)?;
    call(&rt, &mut tray, 1, push(bin(8)), &UNDISTURBED, 1, 0)?;
    steps(&rt, &mut tray, 0, &[1])?;
    assert_eq!(rt; tray.cell(1), Some(cell(bin(5), 1)));
    Ok(())
}

#[test]
fn a_push_that_settled_full_stays_full(rt: HostRuntime) -> Result<(), Fail> {
    let mut cells = [cell(bin(9), 9); 2];
    let mut heads = [head(9, bin(9), 9); 1];
    let mut seats = [Seat::Empty; 2];
    let mut tray = Tray::new(&mut cells, &mut heads, &mut seats);
    call(&rt, &mut tray, 1, push(bin(3)), &UNDISTURBED, 1, 0)?;
    tray.seat(0, push(bin(4)))?;
    steps(&rt, &mut tray, 0, &[2])?;
    call(&rt, &mut tray, 1, pop(), &UNDISTURBED, 3, 3)?;
    steps(&rt, &mut tray, 0, &[1, 4])?;
    assert_eq!(rt; tray.take(0), Ok(reply(2, bin(0))));
    Ok(())
}

#[test]
fn strips_too_short_hold_no_worker(rt: HostRuntime) {
    let mut cells = [cell(bin(9), 9); 1];
    let mut heads = [head(9, bin(9), 9); 1];
    let mut seats = [Seat::Loaded(KnownCommand {
        kind: TrayKind::Push,
        element: bin(1),
    }); 2];
    let mut tray = Tray::new(&mut cells, &mut heads, &mut seats);
    let nobody = refusal(Cause::NoSuchWorker);
    assert_eq!(rt; tray.workers(), 0);
    assert_eq!(rt; tray.seat(0, push(bin(1))), Err(nobody));
    assert_eq!(rt; tray.step(0), Err(nobody));
    assert_eq!(rt; tray.take(0), Err(nobody));
    tray.clear();
    assert_eq!(rt; cells[0], cell(bin(9), 9));
    assert_eq!(rt; heads[0], head(9, bin(9), 9));
    assert!(rt; matches!(seats[0], Seat::Loaded(_)));
}
