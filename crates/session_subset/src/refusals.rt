//! Whether a word may be requested, and why it is refused (X.225 7).

ghost use Rattle.std.specs.Prelude.{◌≡◌, [], ◌∷◌, ◌++◌, not, ◌&&◌};
ghost use Rattle.session_subset.specs.Requests.{is_up, is_over, is_unjoined, owes_connect, owes_restart, owes_end, owes_this_end, owes_interrupt, owes_discard, owes_give, owes_release, is_next, is_up_to_next, own_last, may_request, is_waiting, is_current, is_in_progress, is_ending, is_suspended, refusal_of, alteration_refusal, first_that_holds, not_negotiated, waiting, no_turn, has_turn, no_activity, activity_open, activity_left, ending, not_suspended, in_reliable};

use crate::fault::SessionRefusal;
use crate::state::{Awaited, Owed, Progress, SessionPhase, SessionRole, SessionState};
use osi_base::SessionWord;

/// Whether the association stands.
pub fn is_up(phase: SessionPhase) -> bool
    ensures { result ≡ is_up phase }
{
    matches!(phase, SessionPhase::Up)
}

fn is_over(phase: SessionPhase) -> bool
    ensures { result ≡ is_over phase }
{
    matches!(phase, SessionPhase::Over)
}

fn is_unjoined(phase: SessionPhase) -> bool
    ensures { result ≡ is_unjoined phase }
{
    match phase {
        SessionPhase::Idle
        | SessionPhase::Opening
        | SessionPhase::Broken
        | SessionPhase::Recovering => true,
        _ => false,
    }
}

fn owes_connect(owed: Owed) -> bool
    ensures { result ≡ owes_connect owed }
{
    matches!(owed, Owed::Connect)
}

fn owes_restart(owed: Owed, number: u32) -> bool
    ensures { result ≡ owes_restart owed number }
{
    match owed {
        Owed::Restart(asked) => number == asked,
        _ => false,
    }
}

fn owes_end(owed: Owed) -> bool
    ensures { result ≡ owes_end owed }
{
    matches!(owed, Owed::End(_))
}

fn owes_this_end(owed: Owed, number: u32) -> bool
    ensures { result ≡ owes_this_end owed number }
{
    match owed {
        Owed::End(asked) => number == asked,
        _ => false,
    }
}

fn owes_interrupt(owed: Owed) -> bool
    ensures { result ≡ owes_interrupt owed }
{
    matches!(owed, Owed::Interrupt)
}

fn owes_discard(owed: Owed) -> bool
    ensures { result ≡ owes_discard owed }
{
    matches!(owed, Owed::Discard)
}

fn owes_give(owed: Owed) -> bool
    ensures { result ≡ owes_give owed }
{
    matches!(owed, Owed::Give)
}

fn owes_release(owed: Owed) -> bool
    ensures { result ≡ owes_release owed }
{
    matches!(owed, Owed::Release)
}

/// Whether the number is the next after the last.
pub fn is_next(number: u32, last: u32) -> bool
    ensures { result ≡ is_next number last }
{
    number > 0 && number - 1 == last
}

/// Whether the number is one from 1 to the next after the last.
pub fn is_up_to_next(number: u32, last: u32) -> bool
    ensures { result ≡ is_up_to_next number last }
{
    number > 0 && number - 1 <= last
}

impl SessionState {
    /// The last mark of this end: of the association, or in reliable mode of the own activity.
    fn own_last(&self, role: SessionRole) -> u32
        ensures { result ≡ own_last role self.now }
    {
        if role.reliable {
            self.own.marks
        } else {
            self.mark
        }
    }

    /// Whether a mark of this number of the peer waits to be confirmed.
    fn may_confirm(&self, role: SessionRole, number: u32) -> bool
        ensures { result ≡ may_request role self.now (SessionWord.MarkAck number) }
    {
        is_up(self.phase)
            && role.reliable
            && (self.peer.active || owes_end(self.owed))
            && is_next(number, self.peer.confirmed)
            && number <= self.peer.marks
    }

    /// Whether the conditions hold under which the word may be requested.
    pub(crate) fn may_request(&self, role: SessionRole, word: &SessionWord) -> bool
        ensures { result ≡ may_request role self.now word.now }
    {
        let up = is_up(self.phase);
        match word {
            SessionWord::Connect(_) => role.initiator && !self.met && is_unjoined(self.phase),
            SessionWord::Accept { .. } | SessionWord::Refuse { .. } => owes_connect(self.owed),
            SessionWord::Finish { .. } => role.initiator && up,
            SessionWord::Disconnect { .. } => owes_release(self.owed),
            SessionWord::Abort { .. } => !is_over(self.phase),
            SessionWord::AbortAccept => false,
            SessionWord::GiveTokens { tokens } => up && tokens.is_some(),
            SessionWord::PleaseTokens { tokens, .. } => up && tokens.is_some(),
            SessionWord::GiveTokensConfirm
            | SessionWord::TypedData { .. }
            | SessionWord::Data { .. }
            | SessionWord::ActivityInterrupt { .. }
            | SessionWord::ActivityDiscard { .. } => up,
            SessionWord::GiveTokensAck => up && owes_give(self.owed),
            SessionWord::Mark { number } => up && is_next(*number, self.own_last(role)),
            SessionWord::MarkAck { number } => self.may_confirm(role, *number),
            SessionWord::Resynchronize { number, .. } => up && is_up_to_next(*number, self.mark),
            SessionWord::ResynchronizeAck { number, .. } => up && owes_restart(self.owed, *number),
            SessionWord::ActivityStart { activity } => up && is_next(*activity, self.own.number),
            SessionWord::ActivityResume { activity, mark } => {
                up && *activity == self.own.number && *mark == self.own.confirmed
            }
            SessionWord::ActivityInterruptAck => up && owes_interrupt(self.owed),
            SessionWord::ActivityDiscardAck => up && owes_discard(self.owed),
            SessionWord::ActivityEnd { number } => up && is_next(*number, self.own.marks),
            SessionWord::ActivityEndAck { number } => up && owes_this_end(self.owed, *number),
        }
    }

    fn is_waiting(&self) -> bool
        ensures { result ≡ is_waiting self.now.awaited }
    {
        !matches!(self.awaited, Awaited::Nothing)
    }

    /// Why nothing of an activity may be sent: none is in progress, or its end was sent.
    fn activity_refusal(&self) -> Option<SessionRefusal>
        ensures { result ≡ first_that_holds (no_activity self.now ∷ ending self.now ∷ []) }
    {
        match self.own.progress {
            Progress::Running => None,
            Progress::Ending => Some(SessionRefusal::Ending(self.own.number)),
            Progress::Absent | Progress::Suspended => Some(SessionRefusal::NoActivity),
        }
    }

    /// Why no other activity may be started, nor the association released.
    fn left_refusal(&self) -> Option<SessionRefusal>
        ensures { result ≡ first_that_holds (activity_left self.now ∷ []) }
    {
        match self.own.progress {
            Progress::Absent => None,
            _ => Some(SessionRefusal::ActivityOpen(self.own.number)),
        }
    }

    /// Why data (DT) are refused.
    fn data_refusal(&self, role: SessionRole) -> Option<SessionRefusal>
        ensures { result ≡ first_that_holds (waiting self.now ∷ in_reliable role (no_turn self.now
            ∷ no_activity self.now ∷ ending self.now ∷ [])) }
    {
        if self.is_waiting() {
            return Some(SessionRefusal::Waiting);
        }
        if !role.reliable {
            return None;
        }
        if !self.turn {
            return Some(SessionRefusal::NoTurn);
        }
        self.activity_refusal()
    }

    /// Why typed data (TD) are refused.
    fn typed_refusal(&self) -> Option<SessionRefusal>
        ensures { result ≡ first_that_holds (not_negotiated self.now.units.typed_data
            ∷ waiting self.now ∷ []) }
    {
        if !self.units.typed_data {
            return Some(SessionRefusal::NotNegotiated);
        }
        if self.is_waiting() {
            return Some(SessionRefusal::Waiting);
        }
        None
    }

    /// Why a mark (MIP) is refused.
    fn mark_refusal(&self, role: SessionRole) -> Option<SessionRefusal>
        ensures { result ≡ first_that_holds (not_negotiated self.now.units.minor_synchronize
            ∷ waiting self.now ∷ no_turn self.now ∷ in_reliable role (no_activity self.now
            ∷ ending self.now ∷ [])) }
    {
        if !self.units.minor_synchronize {
            return Some(SessionRefusal::NotNegotiated);
        }
        if self.is_waiting() {
            return Some(SessionRefusal::Waiting);
        }
        if !self.turn {
            return Some(SessionRefusal::NoTurn);
        }
        if !role.reliable {
            return None;
        }
        self.activity_refusal()
    }

    /// Why a giving of the minor token (GT) is refused.
    fn give_refusal(&self, role: SessionRole) -> Option<SessionRefusal>
        ensures { result ≡ first_that_holds (not_negotiated (not role.reliable
            && self.now.units.minor_synchronize) ∷ waiting self.now ∷ no_turn self.now ∷ []) }
    {
        if role.reliable || !self.units.minor_synchronize {
            return Some(SessionRefusal::NotNegotiated);
        }
        if self.is_waiting() {
            return Some(SessionRefusal::Waiting);
        }
        if !self.turn {
            return Some(SessionRefusal::NoTurn);
        }
        None
    }

    /// Why a giving of all tokens (GTC) is refused.
    fn give_confirm_refusal(&self) -> Option<SessionRefusal>
        ensures { result ≡ first_that_holds (not_negotiated self.now.units.activity_management
            ∷ waiting self.now ∷ no_turn self.now ∷ activity_open self.now ∷ []) }
    {
        if !self.units.activity_management {
            return Some(SessionRefusal::NotNegotiated);
        }
        if self.is_waiting() {
            return Some(SessionRefusal::Waiting);
        }
        if !self.turn {
            return Some(SessionRefusal::NoTurn);
        }
        match self.own.progress {
            Progress::Running | Progress::Ending => {
                Some(SessionRefusal::ActivityOpen(self.own.number))
            }
            Progress::Absent | Progress::Suspended => None,
        }
    }

    /// Why a request for the turn (PT) is refused.
    fn please_refusal(&self) -> Option<SessionRefusal>
        ensures { result ≡ first_that_holds (not_negotiated self.now.units.minor_synchronize
            ∷ waiting self.now ∷ has_turn self.now ∷ []) }
    {
        if !self.units.minor_synchronize {
            return Some(SessionRefusal::NotNegotiated);
        }
        if self.is_waiting() {
            return Some(SessionRefusal::Waiting);
        }
        if self.turn {
            return Some(SessionRefusal::HasTurn);
        }
        None
    }

    /// Why a restart (RS) is refused.
    fn restart_refusal(&self) -> Option<SessionRefusal>
        ensures { result ≡ first_that_holds (not_negotiated self.now.units.resynchronize
            ∷ waiting self.now ∷ []) }
    {
        if !self.units.resynchronize {
            return Some(SessionRefusal::NotNegotiated);
        }
        if self.is_waiting() {
            return Some(SessionRefusal::Waiting);
        }
        None
    }

    /// Why an interrupt (AI) or a discard (AD) is refused.
    fn stop_refusal(&self) -> Option<SessionRefusal>
        ensures { result ≡ first_that_holds (not_negotiated self.now.units.activity_management
            ∷ waiting self.now ∷ no_activity self.now ∷ ending self.now ∷ []) }
    {
        if !self.units.activity_management {
            return Some(SessionRefusal::NotNegotiated);
        }
        if self.is_waiting() {
            return Some(SessionRefusal::Waiting);
        }
        self.activity_refusal()
    }

    /// Why a resumption (AR) is refused.
    fn resume_refusal(&self) -> Option<SessionRefusal>
        ensures { result ≡ first_that_holds (not_negotiated self.now.units.activity_management
            ∷ waiting self.now ∷ not_suspended self.now ∷ no_turn self.now ∷ []) }
    {
        if !self.units.activity_management {
            return Some(SessionRefusal::NotNegotiated);
        }
        if self.is_waiting() {
            return Some(SessionRefusal::Waiting);
        }
        if !matches!(self.own.progress, Progress::Suspended) {
            return Some(SessionRefusal::NotSuspended);
        }
        if !self.turn {
            return Some(SessionRefusal::NoTurn);
        }
        None
    }

    /// Why the start of an activity (AS) is refused.
    fn start_refusal(&self) -> Option<SessionRefusal>
        ensures { result ≡ first_that_holds (not_negotiated self.now.units.activity_management
            ∷ waiting self.now ∷ no_turn self.now ∷ activity_left self.now ∷ []) }
    {
        if !self.units.activity_management {
            return Some(SessionRefusal::NotNegotiated);
        }
        if self.is_waiting() {
            return Some(SessionRefusal::Waiting);
        }
        if !self.turn {
            return Some(SessionRefusal::NoTurn);
        }
        self.left_refusal()
    }

    /// Why the end of an activity (AE) is refused.
    fn end_refusal(&self) -> Option<SessionRefusal>
        ensures { result ≡ first_that_holds (not_negotiated self.now.units.activity_management
            ∷ waiting self.now ∷ no_turn self.now ∷ no_activity self.now ∷ ending self.now ∷ []) }
    {
        if !self.units.activity_management {
            return Some(SessionRefusal::NotNegotiated);
        }
        if self.is_waiting() {
            return Some(SessionRefusal::Waiting);
        }
        if !self.turn {
            return Some(SessionRefusal::NoTurn);
        }
        self.activity_refusal()
    }

    /// Why a release (FN) is refused.
    fn release_refusal(&self, role: SessionRole) -> Option<SessionRefusal>
        ensures { result ≡ first_that_holds (waiting self.now ∷ in_reliable role (no_turn self.now
            ∷ []) ++ activity_left self.now ∷ []) }
    {
        if self.is_waiting() {
            return Some(SessionRefusal::Waiting);
        }
        if role.reliable && !self.turn {
            return Some(SessionRefusal::NoTurn);
        }
        self.left_refusal()
    }

    /// Why an alteration of the contexts may not be asked for.
    pub(crate) fn alteration_refusal(&self, role: SessionRole) -> Option<SessionRefusal>
        ensures { result ≡ alteration_refusal role self.now }
    {
        if !self.units.typed_data {
            return Some(SessionRefusal::NotNegotiated);
        }
        if self.is_waiting() {
            return Some(SessionRefusal::Waiting);
        }
        if !role.reliable {
            return None;
        }
        if !self.turn {
            return Some(SessionRefusal::NoTurn);
        }
        match self.own.progress {
            Progress::Ending => Some(SessionRefusal::Ending(self.own.number)),
            _ => None,
        }
    }

    /// Why a word is refused: the first row of its conditions that fails.
    pub(crate) fn refusal(&self, role: SessionRole, word: &SessionWord) -> Option<SessionRefusal>
        ensures { result ≡ refusal_of role self.now word.now }
    {
        match word {
            SessionWord::Data { .. } => self.data_refusal(role),
            SessionWord::TypedData { .. } => self.typed_refusal(),
            SessionWord::Mark { .. } => self.mark_refusal(role),
            SessionWord::GiveTokens { .. } => self.give_refusal(role),
            SessionWord::GiveTokensConfirm => self.give_confirm_refusal(),
            SessionWord::PleaseTokens { .. } => self.please_refusal(),
            SessionWord::Resynchronize { .. } => self.restart_refusal(),
            SessionWord::ActivityInterrupt { .. } | SessionWord::ActivityDiscard { .. } => {
                self.stop_refusal()
            }
            SessionWord::ActivityResume { .. } => self.resume_refusal(),
            SessionWord::ActivityStart { .. } => self.start_refusal(),
            SessionWord::ActivityEnd { .. } => self.end_refusal(),
            SessionWord::Finish { .. } => self.release_refusal(role),
            SessionWord::Connect(_)
            | SessionWord::Accept { .. }
            | SessionWord::Refuse { .. }
            | SessionWord::Disconnect { .. }
            | SessionWord::Abort { .. }
            | SessionWord::AbortAccept
            | SessionWord::GiveTokensAck
            | SessionWord::MarkAck { .. }
            | SessionWord::ResynchronizeAck { .. }
            | SessionWord::ActivityInterruptAck
            | SessionWord::ActivityDiscardAck
            | SessionWord::ActivityEndAck { .. } => None,
        }
    }
}
