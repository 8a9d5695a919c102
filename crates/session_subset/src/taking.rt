//! What is passed over and what may be taken (X.225 7).

ghost use Rattle.std.specs.Prelude.{◌≡◌, not, ◌&&◌, ◌||◌};
ghost use Rattle.session_subset.specs.Takings.{wins_against, is_answer, is_winner, ends_association, is_purged, moves_nothing, peer_last, is_called, is_callable, is_releasing, awaits_restart, awaits_interrupt, awaits_discard, is_whole, has_activity, peer_rests, is_lowest, is_resumable, may_take, is_idle_ack};
ghost use Rattle.session_subset.specs.Requests.{is_up, is_up_to_next, is_in_progress, is_ending, owes_nothing};

use crate::refusals::{is_next, is_up, is_up_to_next};
use crate::state::{
    Awaited, Owed, OwnActivity, PeerActivity, Progress, SessionPhase, SessionRole, SessionState,
};
use crate::units::{are_enough, selected, version_is_2};
use osi_base::SessionWord;

/// The most marks that are kept.
const MOST_MARKS: u32 = 65536;

fn wins_against(role: SessionRole, own: u32, number: u32) -> bool
    ensures { result ≡ wins_against role own number }
{
    number < own || number == own && !role.initiator
}

fn is_answer(awaited: Awaited, word: &SessionWord) -> bool
    ensures { result ≡ is_answer awaited word.now }
{
    match (awaited, word) {
        (Awaited::Restart(_), SessionWord::ResynchronizeAck { .. })
        | (Awaited::Interrupt, SessionWord::ActivityInterruptAck)
        | (Awaited::Discard, SessionWord::ActivityDiscardAck)
        | (Awaited::Release, SessionWord::Disconnect { .. }) => true,
        _ => false,
    }
}

fn is_winner(role: SessionRole, awaited: Awaited, word: &SessionWord) -> bool
    ensures { result ≡ is_winner role awaited word.now }
{
    match (awaited, word) {
        (Awaited::Restart(own), SessionWord::Resynchronize { number, .. }) => {
            wins_against(role, own, *number)
        }
        _ => false,
    }
}

fn ends_association(word: &SessionWord) -> bool
    ensures { result ≡ ends_association word.now }
{
    match word {
        SessionWord::Finish { .. } | SessionWord::Abort { .. } | SessionWord::AbortAccept => true,
        _ => false,
    }
}

/// Whether the word is passed over, since an own request is unanswered.
pub fn is_purged(role: SessionRole, awaited: Awaited, word: &SessionWord) -> bool
    ensures { result ≡ is_purged role awaited word.now }
{
    let waits = !matches!(awaited, Awaited::Nothing);
    waits && !(is_answer(awaited, word) || is_winner(role, awaited, word) || ends_association(word))
}

/// Whether it is a GT or PT in front of another unit, without tokens.
pub fn moves_nothing(word: &SessionWord) -> bool
    ensures { result ≡ moves_nothing word.now }
{
    match word {
        SessionWord::GiveTokens { tokens: None } | SessionWord::PleaseTokens { tokens: None, .. } =>
            { true }
        _ => false,
    }
}

/// Whether it is a mark's confirmation that says nothing in this mode.
pub fn is_idle_ack(role: SessionRole, word: &SessionWord) -> bool
    ensures { result ≡ is_idle_ack role word.now }
{
    match word {
        SessionWord::MarkAck { .. } => !role.reliable,
        _ => false,
    }
}

fn is_called(phase: SessionPhase) -> bool
    ensures { result ≡ is_called phase }
{
    matches!(phase, SessionPhase::Opening | SessionPhase::Recovering)
}

fn is_callable(phase: SessionPhase) -> bool
    ensures { result ≡ is_callable phase }
{
    match phase {
        SessionPhase::Idle | SessionPhase::Opening | SessionPhase::Broken => true,
        _ => false,
    }
}

fn is_releasing(phase: SessionPhase) -> bool
    ensures { result ≡ is_releasing phase }
{
    matches!(phase, SessionPhase::Releasing)
}

fn awaits_restart(awaited: Awaited, number: u32) -> bool
    ensures { result ≡ awaits_restart awaited number }
{
    match awaited {
        Awaited::Restart(own) => number == own,
        _ => false,
    }
}

fn awaits_interrupt(awaited: Awaited) -> bool
    ensures { result ≡ awaits_interrupt awaited }
{
    matches!(awaited, Awaited::Interrupt)
}

fn awaits_discard(awaited: Awaited) -> bool
    ensures { result ≡ awaits_discard awaited }
{
    matches!(awaited, Awaited::Discard)
}

fn owes_nothing(owed: Owed) -> bool
    ensures { result ≡ owes_nothing owed }
{
    matches!(owed, Owed::Nothing)
}

fn is_in_progress(progress: Progress) -> bool
    ensures { result ≡ is_in_progress progress }
{
    matches!(progress, Progress::Running | Progress::Ending)
}

fn is_ending(progress: Progress) -> bool
    ensures { result ≡ is_ending progress }
{
    matches!(progress, Progress::Ending)
}

fn is_lowest(role: SessionRole, own: OwnActivity, number: u32) -> bool
    ensures { result ≡ is_lowest role own number }
{
    !role.reliable
        || is_in_progress(own.progress) && is_next(number, own.confirmed) && number <= own.marks
}

fn is_resumable(peer: PeerActivity, activity: u32, mark: u32) -> bool
    ensures { result ≡ is_resumable peer activity mark }
{
    activity >= 1 && activity == peer.number && mark <= peer.marks
        || is_next(activity, peer.number) && mark == 0
}

impl SessionState {
    fn peer_last(&self, role: SessionRole) -> u32
        ensures { result ≡ peer_last role self.now }
    {
        if role.reliable {
            self.peer.marks
        } else {
            self.mark
        }
    }

    fn is_whole(&self, role: SessionRole, version: Option<u8>, requirements: Option<u16>) -> bool
        ensures { result ≡ is_whole role self.now version requirements }
    {
        let units = selected(role.reliable, self.proposed, requirements.unwrap_or(0));
        version_is_2(version) && are_enough(role.reliable, units)
    }

    fn has_activity(&self, role: SessionRole) -> bool
        ensures { result ≡ has_activity role self.now }
    {
        !role.reliable || !self.turn && self.peer.active
    }

    fn peer_rests(&self) -> bool
        ensures { result ≡ peer_rests self.now }
    {
        !self.turn && !self.peer.active
    }

    fn may_take_connect(&self, role: SessionRole) -> bool
        ensures { result ≡ ((not role.initiator && not self.now.met)
            && is_callable self.now.phase) }
    {
        !role.initiator && !self.met && is_callable(self.phase)
    }

    fn may_take_answer(&self, role: SessionRole) -> bool
        ensures { result ≡ ((role.initiator && self.now.met) && is_called self.now.phase) }
    {
        role.initiator && self.met && is_called(self.phase)
    }

    fn may_take_mark(&self, role: SessionRole, number: u32) -> bool
        ensures { result ≡ may_take role self.now (SessionWord.Mark number) }
    {
        is_up(self.phase)
            && self.units.minor_synchronize
            && !self.turn
            && (!role.reliable || self.peer.active)
            && is_next(number, self.peer_last(role))
            && number <= MOST_MARKS
    }

    fn may_take_restart(&self, number: u32) -> bool
        ensures { result ≡ (((is_up self.now.phase && self.now.units.resynchronize)
            && owes_nothing self.now.owed) && is_up_to_next number self.now.mark) }
    {
        is_up(self.phase)
            && self.units.resynchronize
            && owes_nothing(self.owed)
            && is_up_to_next(number, self.mark)
    }

    fn may_take_give_confirm(&self) -> bool
        ensures { result ≡ (((is_up self.now.phase && self.now.units.activity_management)
            && owes_nothing self.now.owed) && peer_rests self.now) }
    {
        is_up(self.phase)
            && self.units.activity_management
            && owes_nothing(self.owed)
            && self.peer_rests()
    }

    fn may_take_release(&self, role: SessionRole) -> bool
        ensures { result ≡ (((not role.initiator && is_up self.now.phase)
            && owes_nothing self.now.owed) && (not role.reliable || peer_rests self.now)) }
    {
        !role.initiator
            && is_up(self.phase)
            && owes_nothing(self.owed)
            && (!role.reliable || self.peer_rests())
    }

    /// Whether a word of the peer's activity may be taken, with what else it asks.
    fn may_take_in_activity(&self) -> bool
        ensures { result ≡ (((is_up self.now.phase && self.now.units.activity_management)
            && owes_nothing self.now.owed) && self.now.peer.active) }
    {
        is_up(self.phase)
            && self.units.activity_management
            && owes_nothing(self.owed)
            && self.peer.active
    }

    /// Whether an activity of the peer may begin or go on.
    fn may_take_beginning(&self) -> bool
        ensures { result ≡ ((is_up self.now.phase && self.now.units.activity_management)
            && peer_rests self.now) }
    {
        is_up(self.phase) && self.units.activity_management && self.peer_rests()
    }

    /// Whether the word may be taken, if it isn't passed over.
    pub(crate) fn may_take(&self, role: SessionRole, word: &SessionWord) -> bool
        ensures { result ≡ may_take role self.now word.now }
    {
        let up = is_up(self.phase);
        let marks = up && self.units.minor_synchronize;
        match word {
            SessionWord::Connect(_) => self.may_take_connect(role),
            SessionWord::Accept {
                version,
                requirements,
                ..
            } => self.may_take_answer(role) && self.is_whole(role, *version, *requirements),
            SessionWord::Refuse { .. } => self.may_take_answer(role),
            SessionWord::Data { .. } => up && self.has_activity(role),
            SessionWord::TypedData { .. } => up && self.units.typed_data,
            SessionWord::Mark { number } => self.may_take_mark(role, *number),
            SessionWord::MarkAck { number } => marks && is_lowest(role, self.own, *number),
            SessionWord::Resynchronize { number, .. } => self.may_take_restart(*number),
            SessionWord::ResynchronizeAck { number, .. } => {
                up && awaits_restart(self.awaited, *number)
            }
            SessionWord::ActivityStart { activity } => {
                self.may_take_beginning() && is_next(*activity, self.peer.number)
            }
            SessionWord::ActivityResume { activity, mark } => {
                self.may_take_beginning() && is_resumable(self.peer, *activity, *mark)
            }
            SessionWord::ActivityEnd { number } => {
                self.may_take_in_activity() && is_next(*number, self.peer.marks)
            }
            SessionWord::ActivityInterrupt { .. } | SessionWord::ActivityDiscard { .. } => {
                self.may_take_in_activity()
            }
            SessionWord::ActivityEndAck { number } => {
                up && is_ending(self.own.progress) && is_next(*number, self.own.marks)
            }
            SessionWord::ActivityInterruptAck => up && awaits_interrupt(self.awaited),
            SessionWord::ActivityDiscardAck => up && awaits_discard(self.awaited),
            SessionWord::Disconnect { .. } => is_releasing(self.phase),
            SessionWord::GiveTokensAck => up && self.giving,
            SessionWord::GiveTokens { .. } => marks && !role.reliable && !self.turn,
            SessionWord::GiveTokensConfirm => self.may_take_give_confirm(),
            SessionWord::PleaseTokens { .. } => marks,
            SessionWord::Finish { .. } => self.may_take_release(role),
            SessionWord::Abort { .. } | SessionWord::AbortAccept => true,
        }
    }
}
