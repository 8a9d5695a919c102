//! Activities, in reliable mode.

ghost use Rattle.std.specs.Prelude.{◌≡◌, ◌&&◌, nat_eq, suc};
ghost use Rattle.end_rules.specs.State.{is_current, is_ending, highest, pieces_of};
ghost use Rattle.end_rules.specs.Messages.{unit_of_activities};
ghost use Rattle.end_rules.specs.InPlace.{may_begin, may_start, may_resume_at, may_resume, is_receiving, may_end, may_confirm_end, awaits_interrupt, awaits_discard, is_in_place};
ghost use Rattle.association_words.specs.Seen.{seen_activities};
ghost use Rattle.association_pieces.specs.Link.{seen_awaited};
ghost use Rattle.association_pieces.specs.Seen.{seen_receiving};
ghost use Rattle.association_calls.specs.association_state.Seen.{base_in, seen};

use crate::association::is_peers;
use association_calls::association_state_layer::{Awaited, Basis, Body, Receiving};
use association_calls::has_activities;
use association_ground::is_up;
use association_words::ActivityWord;

/// Whether an activity may begin.
pub(crate) fn may_begin(body: &Body) -> bool
    ensures { result ≡ may_begin (seen body.now) }
{
    is_peers(body) && has_activities(body.link.selected) && !body.receiving.active
}

/// Whether it is the activity behind the last one.
fn is_behind(receiving: &Receiving, activity: u32) -> bool
    ensures { result ≡ nat_eq activity (suc (seen_receiving receiving.now).last) }
{
    activity > 0 && activity - 1 == receiving.last
}

/// Whether AS may come.
pub(crate) fn may_start(body: &Body, activity: u32) -> bool
    ensures { result ≡ may_start (seen body.now) activity }
{
    may_begin(body) && is_behind(&body.receiving, activity)
}

/// Whether a resumption names the last activity and one of its marks, or 0; or the next activity
/// and 0.
pub(crate) fn may_resume_at(receiving: &Receiving, activity: u32, mark: u32) -> bool
    ensures { result ≡ may_resume_at (seen_receiving receiving.now) activity mark }
{
    activity == receiving.last && mark <= receiving.pieces.highest()
        || is_behind(receiving, activity) && mark == 0
}

/// Whether AR may come.
pub(crate) fn may_resume(body: &Body, activity: u32, mark: u32) -> bool
    ensures { result ≡ may_resume (seen body.now) activity mark }
{
    may_begin(body) && may_resume_at(&body.receiving, activity, mark)
}

/// Whether the peer's activity is in progress.
pub(crate) fn is_receiving(body: &Body) -> bool
    ensures { result ≡ is_receiving (seen body.now) }
{
    is_up(body.link.phase) && body.receiving.active
}

/// Whether AE may come with this number.
pub(crate) fn may_end(body: &Body, number: u32) -> bool
    ensures { result ≡ may_end (seen body.now) number }
{
    is_receiving(body) && number == body.receiving.pieces.next()
}

/// Whether the end of the current transfer, which was sent, has this number.
fn is_end_of(body: &Body, number: u32) -> bool
    ensures { result ≡ (is_current is_ending (seen body.now).sending.current
        && nat_eq number (suc (highest (pieces_of (seen body.now).sending.current)))) }
{
    match &body.sending.current {
        None => false,
        Some(transfer) => transfer.progress.is_ending() && number == transfer.pieces.next(),
    }
}

/// Whether AEA may come with this number.
pub(crate) fn may_confirm_end(body: &Body, number: u32) -> bool
    ensures { result ≡ may_confirm_end (seen body.now) number }
{
    is_up(body.link.phase) && is_end_of(body, number)
}

/// Whether an interrupt is awaited.
pub(crate) fn awaits_interrupt(awaits: Awaited) -> bool
    ensures { result ≡ awaits_interrupt (seen_awaited awaits) }
{
    match awaits {
        Awaited::InterruptOf => true,
        _ => false,
    }
}

/// Whether a discard is awaited.
pub(crate) fn awaits_discard(awaits: Awaited) -> bool
    ensures { result ≡ awaits_discard (seen_awaited awaits) }
{
    match awaits {
        Awaited::DiscardOf => true,
        _ => false,
    }
}

/// Whether a unit of activities may stand where it comes.
pub(crate) fn is_activity_in_place(basis: &Basis<'_>, body: &Body, word: &ActivityWord) -> bool
    ensures { result ≡ is_in_place (base_in basis.now) (seen body.now)
        (unit_of_activities (seen_activities word.now)) }
{
    match word {
        ActivityWord::Start { activity } => may_start(body, *activity),
        ActivityWord::Resume { activity, mark } => may_resume(body, *activity, *mark),
        ActivityWord::End { number } => may_end(body, *number),
        ActivityWord::EndAck { number } => may_confirm_end(body, *number),
        ActivityWord::Interrupt { .. } => is_receiving(body),
        ActivityWord::InterruptAck => awaits_interrupt(body.link.awaits),
        ActivityWord::Discard { .. } => is_receiving(body),
        ActivityWord::DiscardAck => awaits_discard(body.link.awaits),
    }
}
