//! Events as fields.

ghost use Rattle.std.specs.Prelude.{◌≡◌, IfOk, bytes_eq, Some, None, ◌≤◌, length, nat_le};
ghost use Rattle.value_text.specs.Numbers.{number_of};
ghost use Rattle.osi_base.specs.Limits.{event_most};
ghost use Rattle.script_lines.specs.Reading.{Gives, or_kind};
ghost use Rattle.schedule_text.specs.Events.{side_of, amount_of, carry_at, peer_invoked, call_at, event_of, event_line, is_event_word};

use crate::call::call;
use crate::draft::{Draft, with_event};
use dialogue::Event;
use osi_base::Side;
use script_lines::{ScriptKind, ScriptLineFault, at_line_end, field};
use std::alloc::Global;
use stub_tables::Tables;

/// How many events a schedule may have.
const EVENT_MOST: usize = 20_000;

/// The end that a letter names.
pub(crate) fn side_of(word: &[u8]) -> Option<Side>
    ensures { result ≡ side_of word.now }
{
    if word == b"A".as_slice() {
        Some(Side::A)
    } else if word == b"B".as_slice() {
        Some(Side::B)
    } else {
        None
    }
}

/// The end that a letter names, or an `UnknownWord`.
pub(crate) fn side_or_unknown(word: &[u8]) -> Result<Side, ScriptLineFault>
    ensures { Gives (λ x. x) result (or_kind ScriptKind.UnknownWord (side_of word.now)) }
{
    match side_of(word) {
        Some(side) => Ok(side),
        None => Err(ScriptLineFault::Kind(ScriptKind::UnknownWord)),
    }
}

/// How many octets a carry moves at most: a number, or all.
fn amount_of(word: &[u8]) -> Option<Option<u32>>
    ensures { result ≡ amount_of word.now }
{
    if word == b"all".as_slice() {
        Some(None)
    } else {
        Some(Some(value_text::decimal_number(word)?))
    }
}

fn amount_or_bad(word: &[u8]) -> Result<Option<u32>, ScriptLineFault>
    ensures { Gives (λ x. x) result (or_kind ScriptKind.BadNumber (amount_of word.now)) }
{
    match amount_of(word) {
        Some(amount) => Ok(amount),
        None => Err(ScriptLineFault::Kind(ScriptKind::BadNumber)),
    }
}

/// What follows the word `carry`.
#[tactic(auto, unfolding(crate::specs::Events::carry_at))]
fn carry(text: &[u8]) -> Result<Event, ScriptLineFault>
    ensures { Gives (λ x. x) result (carry_at text.now) }
{
    let (letter, rest) = field(text)?;
    let side = side_or_unknown(letter)?;
    let (amount, rest) = field(rest)?;
    let most = amount_or_bad(amount)?;
    at_line_end(Event::Carry { side, most }, rest)
}

/// What lines of the other end invoked so far.
fn peer_invoked(draft: &Draft, side: Side) -> &[u32]
    ensures { result.now ≡ peer_invoked draft.now side }
{
    match side {
        Side::A => draft.invoked.of(Side::B),
        Side::B => draft.invoked.of(Side::A),
    }
}

/// What follows a letter.
#[tactic(auto, unfolding(crate::specs::Events::call_at))]
fn call_event(
    alloc: Global,
    tables: &Tables,
    draft: &Draft,
    side: Side,
    text: &[u8],
) -> Result<Event, ScriptLineFault>
    ensures { Gives (λ x. x) result (call_at tables.now draft.now side text.now) }
{
    let (word, rest) = field(text)?;
    let call = call(alloc, tables, peer_invoked(draft, side), word, rest)?;
    Ok(Event::Call { side, call })
}

/// Whether an event begins with this word.
pub(crate) fn is_event_word(word: &[u8]) -> bool
    ensures { result ≡ is_event_word word.now }
{
    word == b"A".as_slice()
        || word == b"B".as_slice()
        || word == b"carry".as_slice()
        || word == b"break".as_slice()
}

/// The event of a line, of which the first word and what follows it are given.
fn event(
    alloc: Global,
    tables: &Tables,
    draft: &Draft,
    word: &[u8],
    rest: &[u8],
) -> Result<Event, ScriptLineFault>
    ensures { Gives (λ x. x) result (event_of tables.now draft.now word.now rest.now) }
{
    if word == b"carry".as_slice() {
        return carry(rest);
    }
    if word == b"break".as_slice() {
        return at_line_end(Event::Break, rest);
    }
    let side = side_or_unknown(word)?;
    call_event(alloc, tables, draft, side, rest)
}

/// The draft with the event of a line.
pub(crate) fn event_line(
    alloc: Global,
    tables: &Tables,
    draft: Draft,
    word: &[u8],
    rest: &[u8],
) -> Result<Draft, ScriptLineFault>
    ensures { Gives (λ x. x) result (event_line tables.now draft word.now rest.now) }
{
    if draft.events.len() >= EVENT_MOST {
        return Err(ScriptLineFault::Kind(ScriptKind::TooMany));
    }
    let event = event(alloc, tables, &draft, word, rest)?;
    Ok(with_event(draft, event)?)
}
