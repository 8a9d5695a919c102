//! Marks, restarts and tokens.

ghost use Rattle.std.specs.Prelude.{◌≡◌, Some};
ghost use Rattle.end_rules.specs.Messages.{unit_of_marks};
ghost use Rattle.end_rules.specs.InPlace.{next_coming, may_mark, is_next_confirmed, may_confirm_mark, may_restart, awaits_restart, may_give, may_please, may_give_all, is_in_place};
ghost use Rattle.association_words.specs.Seen.{seen_marks};
ghost use Rattle.association_pieces.specs.Link.{seen_awaited};
ghost use Rattle.association_pieces.specs.Sending.{seen_transfer};
ghost use Rattle.association_calls.specs.association_state.Seen.{base_in, seen};

use crate::association::is_peers;
use association_calls::association_state_layer::{Awaited, Basis, Body, Transfer};
use association_calls::{has_marks, has_restarts, has_token};
use association_ground::{is_direct, is_reliable, is_up};
use association_words::MarkWord;

/// The most marks that are kept.
const MOST_MARKS: u32 = 65_536;

/// The number of the next mark that comes: in reliable mode of the peer's activity.
fn next_coming(basis: &Basis<'_>, body: &Body) -> u32
    ensures { result ≡ next_coming (base_in basis.now) (seen body.now) }
{
    if is_reliable(basis.config.mode) {
        body.receiving.pieces.next()
    } else {
        body.saved.next_number()
    }
}

/// Whether MIP may come with this number.
pub(crate) fn may_mark(basis: &Basis<'_>, body: &Body, number: u32) -> bool
    ensures { result ≡ may_mark (base_in basis.now) (seen body.now) number }
{
    is_peers(body)
        && has_marks(body.link.selected)
        && (!is_reliable(basis.config.mode) || body.receiving.active)
        && number == next_coming(basis, body)
        && number <= MOST_MARKS
}

/// Whether the mark is the lowest of a transfer that isn't confirmed.
fn is_next_of(transfer: &Transfer, number: u32) -> bool
    ensures { result ≡ is_next_confirmed (Some (seen_transfer transfer.now)) number }
{
    !transfer.progress.is_suspended()
        && number > 0
        && number - 1 == transfer.confirmed
        && number <= transfer.pieces.highest()
}

/// Whether the mark is the lowest of the transfer in progress that isn't confirmed.
fn is_next_confirmed(body: &Body, number: u32) -> bool
    ensures { result ≡ is_next_confirmed (seen body.now).sending.current number }
{
    match &body.sending.current {
        None => false,
        Some(transfer) => is_next_of(transfer, number),
    }
}

/// Whether MIA may come with this number: in direct mode any, which is passed over.
pub(crate) fn may_confirm_mark(basis: &Basis<'_>, body: &Body, number: u32) -> bool
    ensures { result ≡ may_confirm_mark (base_in basis.now) (seen body.now) number }
{
    is_up(body.link.phase)
        && has_marks(body.link.selected)
        && (!is_reliable(basis.config.mode) || is_next_confirmed(body, number))
}

/// Whether RS may come with this number.
pub(crate) fn may_restart(body: &Body, number: u32) -> bool
    ensures { result ≡ may_restart (seen body.now) number }
{
    is_up(body.link.phase)
        && has_restarts(body.link.selected)
        && 1 <= number
        && number <= body.saved.next_number()
}

/// Whether a restart to this number is awaited.
pub(crate) fn awaits_restart(awaits: Awaited, number: u32) -> bool
    ensures { result ≡ awaits_restart (seen_awaited awaits) number }
{
    match awaits {
        Awaited::RestartOf(own) => own == number,
        _ => false,
    }
}

/// Whether GT may come: it moves a token in direct mode; without a token item it only stands in
/// front of another unit.
pub(crate) fn may_give(basis: &Basis<'_>, body: &Body, tokens: Option<u8>) -> bool
    ensures { result ≡ may_give (base_in basis.now) (seen body.now) tokens }
{
    match tokens {
        None => true,
        Some(_) => {
            is_direct(basis.config.mode) && has_marks(body.link.selected) && is_peers(body)
        }
    }
}

/// Whether PT may come.
pub(crate) fn may_please(basis: &Basis<'_>, body: &Body, tokens: Option<u8>) -> bool
    ensures { result ≡ may_please (base_in basis.now) (seen body.now) tokens }
{
    match tokens {
        None => true,
        Some(_) => is_up(body.link.phase) && has_token(basis, body),
    }
}

/// Whether GTC may come: it moves all tokens in reliable mode, while no activity is in progress.
pub(crate) fn may_give_all(basis: &Basis<'_>, body: &Body) -> bool
    ensures { result ≡ may_give_all (base_in basis.now) (seen body.now) }
{
    is_reliable(basis.config.mode) && is_peers(body) && !body.receiving.active
}

/// Whether a unit of marks and tokens may stand where it comes.
pub(crate) fn is_mark_in_place(basis: &Basis<'_>, body: &Body, word: &MarkWord) -> bool
    ensures { result ≡ is_in_place (base_in basis.now) (seen body.now)
        (unit_of_marks (seen_marks word.now)) }
{
    match word {
        MarkWord::Mark { number } => may_mark(basis, body, *number),
        MarkWord::MarkAck { number } => may_confirm_mark(basis, body, *number),
        MarkWord::Restart { number, .. } => may_restart(body, *number),
        MarkWord::RestartAck { number, .. } => awaits_restart(body.link.awaits, *number),
        MarkWord::Give { tokens } => may_give(basis, body, *tokens),
        MarkWord::Please { tokens, .. } => may_please(basis, body, *tokens),
        MarkWord::GiveConfirm => may_give_all(basis, body),
        MarkWord::GiveAck => is_up(body.link.phase) && body.link.gave,
    }
}
