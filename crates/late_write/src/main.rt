// Plays the run of the held feeder on a tray of slips, and prints every call and at the end what came off.
#![tactic(auto)]

use elements::kinds::Slip;
use lines::{EventLine, OffLine};
use runs::held_feeder::{Batches, held_feeder};
use runs::off::off;

mod lines;

fn run(rt: &(impl Print + AllocGlobal)) -> anyhow::Result<()> {
    let heap = rt.alloc();
    let batches = Batches {
        first: Slip {
            batch: 101,
            total: 48,
            station: 3,
        },
        second: Slip {
            batch: 102,
            total: 50,
            station: 3,
        },
        third: Slip {
            batch: 103,
            total: 50,
            station: 7,
        },
        late: Slip {
            batch: 104,
            total: 37,
            station: 1,
        },
    };
    let events = held_feeder(heap, batches)?;
    for event in &events {
        println!(rt; "{}", EventLine(*event))?;
    }
    for slip in &off(heap, &events)? {
        println!(rt; "{}", OffLine(*slip))?;
    }
    Ok(())
}

fn main(rt: HostRuntime) -> anyhow::Result<()> {
    run(&rt)
}
