// The lines that the program prints: one for each call, and one for each slip that came off.
use elements::commands::Command;
use elements::kinds::Slip;
use elements::refusals::Refusal;
use pieces::tray::records::{Head, TrayKind};
use runs::events::{Access, Event, Step, Touched};
use std::fmt;

// What a call did, by the cases of a closed list.
#[derive(Clone, Copy)]
pub struct EventLine(pub Event<Slip>);

impl fmt::Display for EventLine {
    fn fmt<W: fmt::Write>(&self, f: &mut fmt::Formatter<W>) -> fmt::Result {
        match self.0 {
            Event::Seated(worker, command, Ok(())) => {
                write!(f, "feeder {worker} seats {}", CommandText(command))
            }
            Event::Stepped(
                Step {
                    worker,
                    head,
                    access: Ok(access),
                },
            ) => write!(
                f,
                "feeder {worker} {}{}{}",
                AccessText(access),
                HeadText(head),
                TouchedText(access.touched)
            ),
            Event::Taken(worker, Ok(reply)) => write!(
                f,
                "feeder {worker} takes {} {}",
                reply.code, reply.element.batch
            ),
            Event::Seated(worker, _, Err(refusal))
            | Event::Stepped(
                Step {
                    worker,
                    access: Err(refusal),
                    ..
                },
            )
            | Event::Taken(worker, Err(refusal)) => {
                write!(f, "feeder {worker} {}", RefusalText(refusal))
            }
        }
    }
}

#[derive(Clone, Copy)]
struct CommandText(Command<Slip>);

impl fmt::Display for CommandText {
    fn fmt<W: fmt::Write>(&self, f: &mut fmt::Formatter<W>) -> fmt::Result {
        match TrayKind::try_from(self.0.kind) {
            Ok(TrayKind::Push) => write!(f, "push {}", self.0.element.batch),
            _ => write!(f, "pop"),
        }
    }
}

#[derive(Clone, Copy)]
struct AccessText(Access<Slip>);

impl fmt::Display for AccessText {
    fn fmt<W: fmt::Write>(&self, f: &mut fmt::Formatter<W>) -> fmt::Result {
        let Access { number, answer, .. } = self.0;
        write!(f, "access {number} answer {}", u8::from(answer))
    }
}

// The head, if the tray shows one.
#[derive(Clone, Copy)]
struct HeadText(Option<Head<Slip>>);

impl fmt::Display for HeadText {
    fn fmt<W: fmt::Write>(&self, f: &mut fmt::Formatter<W>) -> fmt::Result {
        let Some(head) = self.0 else { return Ok(()) };
        write!(
            f,
            " head ({}, {}, {})",
            head.index, head.element.batch, head.tick
        )
    }
}

// The cell that an access touched, if it touched one.
#[derive(Clone, Copy)]
struct TouchedText(Option<Touched<Slip>>);

impl fmt::Display for TouchedText {
    fn fmt<W: fmt::Write>(&self, f: &mut fmt::Formatter<W>) -> fmt::Result {
        let Some(Touched { index, cell }) = self.0 else {
            return Ok(());
        };
        write!(f, " cell {index} ({}, {})", cell.element.batch, cell.tick)
    }
}

#[derive(Clone, Copy)]
struct RefusalText(Refusal);

impl fmt::Display for RefusalText {
    fn fmt<W: fmt::Write>(&self, f: &mut fmt::Formatter<W>) -> fmt::Result {
        write!(f, "refused {}", u8::from(self.0.cause))
    }
}

// A slip that came off.
#[derive(Clone, Copy)]
pub struct OffLine(pub Slip);

impl fmt::Display for OffLine {
    fn fmt<W: fmt::Write>(&self, f: &mut fmt::Formatter<W>) -> fmt::Result {
        let Slip {
            batch,
            total,
            station,
        } = self.0;
        write!(f, "off {batch} {total} {station}")
    }
}
