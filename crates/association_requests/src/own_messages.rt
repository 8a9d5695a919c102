//! What an end of reliable mode sends by itself: while it leads, all that its transfer in progress
//! gives, and the start of the next item (X.228 7.3).

ghost use Rattle.std.specs.Prelude.{◌≡◌, length, take, Some, IfOk, option_map};
ghost use Rattle.end_rules.specs.Messages.{OfMarks, OfActivities, Session, Mark, End};
ghost use Rattle.end_rules.specs.ByItself.{SendsNow, encodes_on, leads, part_size, is_window_full, left_of, next_of, next_start, next_in, next_own};
ghost use Rattle.association_pieces.specs.Sending.{seen_encoded, seen_transfer};
ghost use Rattle.association_hearing.specs.association_state.Seen.{base_in, seen};
ghost use Rattle.association_requests.specs.OwnActs.{seen_act};

use association_ground::{is_reliable, is_up};
use association_hearing::association_calls_layer::carrier_in;
use association_hearing::association_sends_layer::part_message;
use association_hearing::association_state_layer::{Basis, Body, Encoded, Transfer};
use association_words::{ActivityWord, MarkWord, Message, Word};
use osi_base::{NoMemory, Octets};

/// The last number of an activity.
const LAST_ACTIVITY: u32 = 999_999;

/// What an end does by itself: it sends a message, or encodes the item of its current transfer on a
/// context.
#[derive(Debug, Drop)]
pub enum OwnAct {
    /// This message is sent.
    Sends(Message),
    /// The item is encoded on the context with this identifier.
    Encodes(u32),
}

/// Whether the end leads: up, with the turn, nothing awaited and no own alteration unanswered.
fn leads(basis: &Basis<'_>, body: &Body) -> bool
    ensures { result ≡ leads (base_in basis.now) (seen body.now) }
{
    is_reliable(basis.config.mode)
        && is_up(body.link.phase)
        && body.link.turn
        && body.link.awaits.is_free()
        && body.sets.own.len() == 0
}

/// How many octets the next part has at most: 1,024 for each unit of the checkpoint; without
/// checkpoints all that is left.
#[tactic(auto, using(crate::proofs::Parts::part_size_of))]
fn part_size(checkpoint: u32, left: usize) -> usize
    ensures { result ≡ part_size checkpoint left }
{
    if checkpoint == 0 {
        left
    } else {
        checkpoint as usize * 1_024
    }
}

/// Whether as many marks as the window aren't confirmed.
fn is_window_full(transfer: &Transfer, encoded: &Encoded) -> bool
    ensures { result ≡ is_window_full (seen_transfer transfer.now) (seen_encoded
        transfer.now.item.apdu encoded.now) }
{
    let highest = transfer.pieces.highest();
    encoded.window <= highest.saturating_sub(transfer.confirmed)
}

/// What is left of the octets.
#[tactic(auto, using(std::proofs::lemmas::List::drop_all))]
fn left_of<'a>(transfer: &Transfer, encoded: &'a Encoded) -> &'a [u8]
    ensures { result.now ≡ left_of (seen_transfer transfer.now) (seen_encoded
        transfer.now.item.apdu encoded.now) }
{
    let octets = encoded.octets.as_slice();
    let sent = transfer.pieces.octets();
    if sent <= octets.len() {
        &octets[sent..]
    } else {
        &[]
    }
}

/// The octets of the next part.
#[tactic(auto, using(std::proofs::lemmas::List::take_all))]
fn next_part(basis: &Basis<'_>, checkpoint: u32, left: &[u8]) -> Result<Octets, NoMemory>
    ensures { IfOk result (λ part. part ≡ take (part_size checkpoint (length left.now)) left.now) }
{
    let size = part_size(checkpoint, left.len());
    if size < left.len() {
        Octets::from_slice(basis.alloc, &left[..size])
    } else {
        Octets::from_slice(basis.alloc, left)
    }
}

/// A mark is sent.
fn sends_mark(number: u32) -> OwnAct
    ensures { seen_act result ≡ SendsNow (Session (OfMarks (Mark number))) }
{
    OwnAct::Sends(Message::Session(Word::OfMarks(MarkWord::Mark { number })))
}

/// The end of an activity is sent.
fn sends_end(number: u32) -> OwnAct
    ensures { seen_act result ≡ SendsNow (Session (OfActivities (End number))) }
{
    OwnAct::Sends(Message::Session(Word::OfActivities(ActivityWord::End { number })))
}

/// The mark, the end or the part that comes next of an encoded transfer; nothing where its window
/// is full.
fn next_of(
    basis: &Basis<'_>,
    body: &Body,
    transfer: &Transfer,
    encoded: &Encoded,
) -> Result<Option<OwnAct>, NoMemory>
    ensures { IfOk result (λ act. option_map seen_act act ≡ next_of (seen body.now)
        (seen_transfer transfer.now) (seen_encoded transfer.now.item.apdu encoded.now)
        (left_of (seen_transfer transfer.now) (seen_encoded transfer.now.item.apdu encoded.now))) }
{
    let left = left_of(transfer, encoded);
    if transfer.pieces.ends_in_octets() && left.len() != 0 {
        return Ok(Some(sends_mark(transfer.pieces.next())));
    }
    if is_window_full(transfer, encoded) {
        return Ok(None);
    }
    if left.len() == 0 {
        return Ok(Some(sends_end(transfer.pieces.next())));
    }
    let part = next_part(basis, encoded.checkpoint, left)?;
    Ok(Some(OwnAct::Sends(part_message(basis.alloc, body, part)?)))
}

/// An item is encoded once it has a carrier.
fn encodes_on(carrier: Option<u32>) -> Option<OwnAct>
    ensures { option_map seen_act result ≡ encodes_on carrier }
{
    match carrier {
        None => None,
        Some(context) => Some(OwnAct::Encodes(context)),
    }
}

/// What comes next of a transfer: it is encoded once it has a carrier.
fn next_of_transfer(
    basis: &Basis<'_>,
    body: &Body,
    transfer: &Transfer,
) -> Result<Option<OwnAct>, NoMemory>
    ensures { IfOk result (λ act. option_map seen_act act ≡ next_in (base_in basis.now)
        (seen body.now) (Some (seen_transfer transfer.now))) }
{
    if !transfer.progress.is_running() {
        return Ok(None);
    }
    match &transfer.encoded {
        None => Ok(encodes_on(carrier_in(basis, body, transfer.item.context))),
        Some(encoded) => next_of(basis, body, transfer, encoded),
    }
}

/// The start of the next item, where it has a carrier and its number is one.
fn next_start(basis: &Basis<'_>, body: &Body) -> Option<OwnAct>
    ensures { option_map seen_act result ≡ next_start (base_in basis.now) (seen body.now)
        (seen body.now).sending.queue }
{
    let item = body.sending.queue.first()?;
    let started = body.sending.started;
    if carrier_in(basis, body, item.context).is_some() && started < LAST_ACTIVITY {
        Some(OwnAct::Sends(Message::Session(Word::OfActivities(ActivityWord::Start {
            activity: started + 1,
        }))))
    } else {
        None
    }
}

/// What the end does next by itself, if anything.
pub fn next_own(basis: &Basis<'_>, body: &Body) -> Result<Option<OwnAct>, NoMemory>
    ensures { IfOk result (λ act. option_map seen_act act ≡ next_own (base_in basis.now)
        (seen body.now)) }
{
    if !leads(basis, body) {
        return Ok(None);
    }
    match &body.sending.current {
        None => Ok(next_start(basis, body)),
        Some(transfer) => next_of_transfer(basis, body, transfer),
    }
}
