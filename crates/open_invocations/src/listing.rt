//! The open invocations as a list.

ghost use Rattle.std.specs.Prelude.{◌≡◌, IfOk};
ghost use Rattle.rose_roles.specs.Calls.{called, side, operation_or_none, context_or_none, parent_in, open_call, open_calls_in};

use crate::open_call::OpenCall;
use linked_ops::Key;
use osi_base::NoMemory;
use rose_roles::{InvokedWith, Invoker, Performer};
use std::alloc::Global;

/// What is called under an identifier of this end (own), or of its peer.
pub(crate) fn called_at(
    invoker: &Invoker,
    performer: &Performer,
    own: bool,
    id: &i64,
) -> Option<InvokedWith>
    ensures { result ≡ called id.now (side own invoker.now.kept performer.now.kept) }
{
    if own {
        invoker.called(id)
    } else {
        performer.called(id)
    }
}

/// The operation that is called; 0 where none is.
fn operation_in(called: Option<InvokedWith>) -> u32
    ensures { result ≡ operation_or_none called }
{
    match called {
        Some(called) => called.operation,
        None => 0,
    }
}

/// The context of what is called; 0 where nothing is.
fn context_in(called: Option<InvokedWith>) -> u32
    ensures { result ≡ context_or_none called }
{
    match called {
        Some(called) => called.context,
        None => 0,
    }
}

/// The identifier of the key above, which is of the other end.
fn parent_in(own: bool, above: Option<Key>) -> Option<i64>
    ensures { result ≡ parent_in own above }
{
    match above {
        Some(above) => {
            if above.own == own {
                None
            } else {
                Some(above.id)
            }
        }
        None => None,
    }
}

/// The open invocation with this key, under that one.
fn open_call(invoker: &Invoker, performer: &Performer, entry: &(Key, Option<Key>)) -> OpenCall
    ensures { result ≡ open_call invoker.now.kept performer.now.kept entry.now }
{
    let key = entry.0;
    let called = called_at(invoker, performer, key.own, &key.id);
    OpenCall {
        own: key.own,
        id: key.id,
        operation: operation_in(called),
        context: context_in(called),
        parent: parent_in(key.own, entry.1),
    }
}

/// The open invocations in order of opening.
pub(crate) fn open_calls_in(
    alloc: Global,
    entries: &[(Key, Option<Key>)],
    invoker: &Invoker,
    performer: &Performer,
) -> Result<Vec<OpenCall>, NoMemory>
    ensures { IfOk result (λ opens. opens.items ≡ open_calls_in entries.now invoker.now.kept
        performer.now.kept) }
{
    let mut opens = Vec::new(alloc);
    for entry in entries {
        opens.push(open_call(invoker, performer, entry))?;
    }
    Ok(opens)
}
