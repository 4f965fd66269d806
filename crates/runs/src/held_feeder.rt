// The run of the held feeder: it is held between reading a cell and writing it, while two others take the slip that
// it saw off the tray and lay newer ones on. Its late write must not land on a newer slip.
ghost use Rattle.std.specs.Prelude.{◌≡◌, ◌++◌, OnOk, IfOk};
ghost use Rattle.elements.specs.Kinds.{slip_kind};
ghost use Rattle.runs.specs.HeldFeeder.{tried, whole, held, resumed, before_late, held_feeder, EachOnce};

use crate::events::{Call, Event};
use crate::play::play;
use elements::commands::Command;
use elements::element::Element;
use elements::kinds::Slip;
use pieces::seats::Seat;
use pieces::tray::Tray;
use pieces::tray::kinds::{pop, push};
use pieces::tray::records::{Cell, Head};
use std::alloc::{AllocError, Global};

// What the feeders of the run lay on: `late` is the one that feeder 0 is held with; meanwhile `first` is taken off, and
// `second` and `third` are laid on.
#[derive(Clone, Copy)]
pub struct Batches<E> {
    pub first: E,
    pub second: E,
    pub third: E,
    pub late: E,
}

// Adds the five accesses of a try, and its reply.
fn add_try(calls: &mut Vec<Call<Slip>>, worker: usize) -> Result<(), AllocError>
    ensures { OnOk result (calls.new.items ≡ calls.old.items ++ tried worker) }
{
    calls.extend_from_slice(&[Call::Step(worker); 5])?;
    calls.push(Call::Take(worker))?;
    Ok(())
}

// Adds a command of one worker, from its seat to its reply.
fn add_whole_command(
    calls: &mut Vec<Call<Slip>>,
    worker: usize,
    command: Command<Slip>,
) -> Result<(), AllocError>
    ensures { OnOk result (calls.new.items ≡ calls.old.items ++ whole worker command) }
{
    calls.push(Call::Seat(worker, command))?;
    add_try(calls, worker)
}

// Adds a command whose worker is held after its second access.
fn add_held_command(
    calls: &mut Vec<Call<Slip>>,
    worker: usize,
    command: Command<Slip>,
) -> Result<(), AllocError>
    ensures { OnOk result (calls.new.items ≡ calls.old.items ++ held worker command) }
{
    calls.push(Call::Seat(worker, command))?;
    calls.extend_from_slice(&[Call::Step(worker); 2])
}

// Adds what the held worker does when it goes on: the late write, the rest of that try, and another one.
fn add_resumed_command(calls: &mut Vec<Call<Slip>>, worker: usize) -> Result<(), AllocError>
    ensures { OnOk result (calls.new.items ≡ calls.old.items ++ resumed worker) }
{
    calls.extend_from_slice(&[Call::Step(worker); 3])?;
    add_try(calls, worker)
}

// The calls up to the late write.
fn calls_before(heap: Global, batches: Batches<Slip>) -> Result<Vec<Call<Slip>>, AllocError>
    ensures { IfOk result (λ v. v.items ≡ before_late slip_kind.blank batches) }
{
    let mut calls = Vec::new(heap);
    add_whole_command(&mut calls, 1, push(batches.first))?;
    add_held_command(&mut calls, 0, push(batches.late))?;
    add_whole_command(&mut calls, 1, pop())?;
    add_whole_command(&mut calls, 1, push(batches.second))?;
    add_whole_command(&mut calls, 2, push(batches.third))?;
    Ok(calls)
}

// All the calls of the run.
fn calls_of(heap: Global, batches: Batches<Slip>) -> Result<Vec<Call<Slip>>, AllocError>
    ensures { IfOk result (λ v. v.items ≡ held_feeder slip_kind.blank batches) }
{
    let mut calls = calls_before(heap, batches)?;
    add_resumed_command(&mut calls, 0)?;
    add_whole_command(&mut calls, 2, pop())?;
    add_whole_command(&mut calls, 2, pop())?;
    add_whole_command(&mut calls, 2, pop())?;
    Ok(calls)
}

// Plays the run on a new tray with four places for three feeders, and gives what took place.
pub fn held_feeder(heap: Global, batches: Batches<Slip>) -> Result<Vec<Event<Slip>>, AllocError>
    ensures { IfOk result (λ v. EachOnce slip_kind batches v.items) }
{
    let calls = calls_of(heap, batches)?;
    let blank = Slip::blank();
    let mut cells = [Cell {
        element: blank,
        tick: 0,
    }; 5];
    let mut heads = [Head {
        index: 0,
        element: blank,
        tick: 0,
    }; 1];
    let mut seats = [Seat::Empty; 3];
    let mut tray = Tray::new(&mut cells, &mut heads, &mut seats);
    play(heap, &mut tray, &calls)
}
