//! Tokens, activities and parts of transfers that an end writes.

ghost use Rattle.std.specs.Prelude.{◌≡◌, IfOk};
ghost use Rattle.std.specs.Option.{option_copied};
ghost use Rattle.osi_base.specs.SetPlaces.{pair_of};
ghost use Rattle.end_rules.specs.Writing.{give_message, rtse_value, please_message, part_message};
ghost use Rattle.end_rules.specs.Messages.{OfActivities, Session};
ghost use Rattle.association_words.specs.Seen.{seen_message, seen_value, seen_content, seen_activities};
ghost use Rattle.association_state.specs.Seen.{seen};

use crate::values::rtse_context;
use association_state::Body;
use association_words::{
    ActivityWord, DataWord, MarkWord, Message, Value, ValueContent, Values, Word,
};
use dialogue::Mode;
use osi_base::{Copied, ListOf, NoMemory, Octets, Pair, SetItem, pair_of};
use std::alloc::Global;

/// GT with the minor token, GTC of all tokens.
pub fn give_message(mode: Mode) -> Message
    ensures { seen_message result ≡ give_message mode }
{
    match mode {
        Mode::Reliable => Message::Session(Word::OfMarks(MarkWord::GiveConfirm)),
        Mode::Direct => Message::Session(Word::OfMarks(MarkWord::Give { tokens: Some(4) })),
        Mode::Bare => Message::Session(Word::OfMarks(MarkWord::Give { tokens: Some(4) })),
    }
}

/// A message of activities.
pub fn activity_message(word: ActivityWord) -> Message
    ensures { seen_message result ≡ Session (OfActivities (seen_activities word)) }
{
    Message::Session(Word::OfActivities(word))
}

/// A copy of the pair that a set gives an identifier.
pub fn pair_copied(alloc: Global, set: &[SetItem], id: u32) -> Result<Option<Pair>, NoMemory>
    ensures { IfOk result (λ pair. pair ≡ pair_of set.now id) }
{
    match pair_of(set, id) {
        None => Ok(None),
        Some(pair) => Ok(Some(pair.copy(alloc)?)),
    }
}

/// A value of reliable transfer.
fn rtse_value(alloc: Global, body: &Body, content: ValueContent) -> Result<Value, NoMemory>
    ensures { IfOk result (λ value. seen_value value ≡ rtse_value (seen body.now)
        (seen_content content)) }
{
    let id = rtse_context(body.link.accepted.as_slice());
    let Ok(pair) = pair_copied(alloc, body.sets.held.as_slice(), id) else {
        drop(content);
        return Err(NoMemory);
    };
    Ok(Value { id, pair, content })
}

/// PT with a plea in reliable mode, PT with the minor token else.
pub fn please_message(
    alloc: Global,
    body: &Body,
    mode: Mode,
    priority: u32,
) -> Result<Message, NoMemory>
    ensures { IfOk result (λ m. seen_message m ≡ please_message (seen body.now) mode priority) }
{
    let mut values: Values = ListOf::new(alloc);
    match mode {
        Mode::Reliable => {
            values.push(rtse_value(alloc, body, ValueContent::Plea { priority })?)?;
            Ok(Message::Session(Word::OfMarks(MarkWord::Please {
                tokens: Some(21),
                values,
            })))
        }
        Mode::Direct => Ok(Message::Session(Word::OfMarks(MarkWord::Please {
            tokens: Some(4),
            values,
        }))),
        Mode::Bare => Ok(Message::Session(Word::OfMarks(MarkWord::Please {
            tokens: Some(4),
            values,
        }))),
    }
}

/// DT with a part of a transfer.
pub fn part_message(alloc: Global, body: &Body, octets: Octets) -> Result<Message, NoMemory>
    ensures { IfOk result (λ m. seen_message m ≡ part_message (seen body.now) octets) }
{
    let mut values: Values = ListOf::new(alloc);
    values.push(rtse_value(alloc, body, ValueContent::Part(octets))?)?;
    Ok(Message::Session(Word::OfData(DataWord::Values(values))))
}
