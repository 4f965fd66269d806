// What came off a tray in a run.
ghost use Rattle.std.specs.Prelude.{◌≡◌, IfOk};
ghost use Rattle.runs.specs.HeldFeeder.{popped, came_off};

use crate::events::Event;
use elements::commands::Code;
use elements::element::Element;
use std::alloc::{AllocError, Global};

// What an event took off. The code of a reply is a number, since an object may have codes of its own.
fn taken_off<E: Element>(event: Event<E>) -> Option<E>
    ensures { result ≡ popped event }
{
    match event {
        Event::Taken(_, Ok(reply)) if reply.code == u8::from(Code::Popped) => Some(reply.element),
        _ => None,
    }
}

// The elements that the events took off, in their order.
pub fn off<E: Element>(heap: Global, events: &[Event<E>]) -> Result<Vec<E>, AllocError>
    ensures { IfOk result (λ v. v.items ≡ came_off events.now) }
{
    let mut elements = Vec::with_capacity(heap, events.len())?;
    for event in events {
        if let Some(element) = taken_off(*event) {
            elements.push(element)?;
        }
    }
    Ok(elements)
}
