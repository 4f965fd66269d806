// Three very different pieces through the one interface, and the worked run of the tally.
use super::{bin, cell, command, head, refusal, reply, steps};
use elements::kinds::{Amount, Slip};
use elements::refusals::Cause;
use pieces::alone::call_alone;
use pieces::piece::Piece;
use pieces::seats::Seat;
use pieces::tray::Tray;
use std::test::Fail;
use tally::Tally;
use tally::records::Pair;

#[test]
fn a_bins_tray_is_called_alone(rt: HostRuntime) {
    let blank = bin(0);
    let seven = bin(7);
    let mut cells = [cell(blank, 0); 2];
    let mut heads = [head(0, blank, 0); 1];
    let mut seats = [Seat::Empty; 2];
    let mut tray = Tray::new(&mut cells, &mut heads, &mut seats);
    assert_eq!(rt;
        call_alone(&mut tray, 0, command(1, seven)),
        Ok(reply(1, blank))
    );
    assert_eq!(rt;
        call_alone(&mut tray, 1, command(1, seven)),
        Ok(reply(2, blank))
    );
    assert_eq!(rt;
        call_alone(&mut tray, 1, command(2, blank)),
        Ok(reply(3, seven))
    );
    assert_eq!(rt;
        call_alone(&mut tray, 1, command(3, blank)),
        Err(refusal(Cause::UnknownKind))
    );
}

#[test]
fn a_slips_tray_is_called_alone(rt: HostRuntime) {
    let blank = Slip {
        batch: 0,
        total: 0,
        station: 0,
    };
    let slip = Slip {
        batch: 101,
        total: 48,
        station: 3,
    };
    let mut cells = [cell(blank, 0); 3];
    let mut heads = [head(0, blank, 0); 1];
    let mut seats = [Seat::Empty; 1];
    let mut tray = Tray::new(&mut cells, &mut heads, &mut seats);
    assert_eq!(rt;
        call_alone(&mut tray, 0, command(1, slip)),
        Ok(reply(1, blank))
    );
    assert_eq!(rt;
        call_alone(&mut tray, 0, command(2, blank)),
        Ok(reply(3, slip))
    );
    assert_eq!(rt;
        call_alone(&mut tray, 0, command(2, blank)),
        Ok(reply(4, blank))
    );
}

fn units(units: u32) -> Amount {
    Amount { units }
}

#[test]
fn a_tally_is_called_alone(rt: HostRuntime) {
    let mut tally = Tally::new(1, 10);
    assert_eq!(rt;
        call_alone(&mut tally, 0, command(1, units(4))),
        Ok(reply(5, units(4)))
    );
    assert_eq!(rt;
        call_alone(&mut tally, 0, command(1, units(7))),
        Ok(reply(6, units(0)))
    );
    assert_eq!(rt;
        call_alone(&mut tally, 0, command(2, units(0))),
        Ok(reply(7, units(4)))
    );
}

#[test]
fn a_tally_step_by_step(rt: HostRuntime) -> Result<(), Fail> {
    let mut tally = Tally::new(2, 10);
    tally.seat(0, command(1, units(4)))?;
    steps(&rt, &mut tally, 0, &[1, 3])?;
    assert_eq!(rt; tally.take(0), Ok(reply(5, units(4))));
    tally.seat(0, command(1, units(7)))?;
    steps(&rt, &mut tally, 0, &[3])?;
    assert_eq!(rt; tally.take(0), Ok(reply(6, units(0))));
    tally.seat(0, command(1, units(1)))?;
    steps(&rt, &mut tally, 0, &[1])?;
    assert_eq!(rt;
        call_alone(&mut tally, 1, command(1, units(2))),
        Ok(reply(5, units(6)))
    );
    steps(&rt, &mut tally, 0, &[5])?;
    assert_eq!(rt; tally.take(0), Ok(reply(9, units(0))));
    assert_eq!(rt; tally.pair(), Pair { total: 6, tick: 2 });
    Ok(())
}
