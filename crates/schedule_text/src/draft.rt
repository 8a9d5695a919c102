//! What the lines of a schedule say so far.

ghost use Rattle.std.specs.Prelude.{◌≡◌, ◌++◌, ◌∷◌, OnOk, IfOk, [], List};
ghost use Rattle.script_lines.specs.Reading.{Gives};
ghost use Rattle.schedule_text.specs.Events.{no_draft, named_by, with_event};

use crate::setting::Setting;
use dialogue::{Event, Events};
use osi_base::{ListOf, NoMemory};
use script_lines::InvokedOperations;
use std::alloc::Global;

/// What the lines of a schedule say so far.
#[derive(Debug, Drop)]
pub struct Draft {
    /// What the lines of the setup say so far.
    pub setting: Setting,
    /// The events that the lines say so far, in order.
    pub events: Events,
    /// The operations that the lines invoked.
    pub invoked: InvokedOperations,
}

/// Before any line.
pub(crate) fn no_draft(alloc: Global) -> Draft
    ensures { result ≡ no_draft }
{
    Draft {
        setting: Setting {
            mode: None,
            checkpoint: 0,
            window: 1,
            contexts: ListOf::new(alloc),
            accepted_by_a: None,
            accepted_by_b: None,
        },
        events: ListOf::new(alloc),
        invoked: InvokedOperations::new(alloc),
    }
}

/// Puts what an event invokes behind what was invoked before.
fn name(invoked: &mut InvokedOperations, event: &Event) -> Result<(), NoMemory>
    ensures { OnOk result (invoked.new ≡ named_by invoked.old event.now) }
{
    match event {
        Event::Call { side, call } => invoked.name(*side, call),
        _ => Ok(()),
    }
}

/// One event more.
pub(crate) fn with_event(draft: Draft, event: Event) -> Result<Draft, NoMemory>
    ensures { IfOk result (λ after. after ≡ with_event draft event) }
{
    let mut draft = draft;
    let Ok(()) = name(&mut draft.invoked, &event) else {
        drop(draft);
        drop(event);
        return Err(NoMemory);
    };
    let Ok(()) = draft.events.push(event) else {
        drop(draft);
        return Err(NoMemory);
    };
    Ok(draft)
}
