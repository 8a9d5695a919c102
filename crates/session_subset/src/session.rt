//! The session machine of one association.

ghost use Rattle.std.specs.Prelude.{◌≡◌, ◌≢◌, [], ◌∷◌, true, Some, None, Ok, IfSome, IfNone, IfOk, OnOk, MatchResult, Err};
ghost use Rattle.session_subset.specs.Requests.{units_sent, goes_alone};

use crate::changes::{broke, new_state, transport_asked, transport_refused, word_sent, word_taken};
use crate::fault::{SessionFault, SessionRefusal};
use crate::refusals::is_up;
use crate::state::{Awaited, SessionRole, SessionState};
use crate::taking::{is_idle_ack, is_purged, moves_nothing};
use osi_base::{NoMemory, SessionWord, Spdu, Spdus};
use std::alloc::Global;
use std::marker::Model;

/// What became of a unit that came.
#[derive(Debug, Drop)]
pub enum Taken {
    /// It was passed over.
    Passed,
    /// It was taken.
    Word(SessionWord),
}

/// The session machine of one end, for one association.
#[derive(Debug, Drop)]
pub struct Session {
    alloc: Global,
    role: SessionRole,
    state: SessionState,
}

impl Model for Session {
    ghost use Rattle.session_subset.specs.Machine.{SessionView};

    ghost Value = { SessionView };

    ghost view = { λ s. record { role = s.role; state = s.state } };
}

/// No units, or a word alone, or behind an empty GT.
fn units_sent(alloc: Global, state: SessionState, word: SessionWord) -> Result<Spdus, NoMemory>
    ensures { IfOk result (λ units. units ≡ units_sent state word) }
{
    let mut units = Spdus::new(alloc);
    if matches!(word, SessionWord::Abort { .. }) && !state.met {
        return Ok(units);
    }
    if !goes_alone(&word) {
        units.push(SessionWord::GiveTokens { tokens: None })?;
    }
    units.push(word)?;
    Ok(units)
}

/// Whether it goes alone in a TSDU.
fn goes_alone(word: &SessionWord) -> bool
    ensures { result ≡ goes_alone word.now }
{
    match word {
        SessionWord::Connect(_)
        | SessionWord::Accept { .. }
        | SessionWord::Refuse { .. }
        | SessionWord::Finish { .. }
        | SessionWord::Disconnect { .. }
        | SessionWord::Abort { .. }
        | SessionWord::AbortAccept
        | SessionWord::GiveTokens { .. }
        | SessionWord::PleaseTokens { .. }
        | SessionWord::GiveTokensConfirm
        | SessionWord::GiveTokensAck
        | SessionWord::TypedData { .. } => true,
        _ => false,
    }
}

impl Session {
    ghost use Rattle.session_subset.specs.Machine.{SessionView, StandsFor};
    ghost use Rattle.session_subset.specs.Steps.{History, requested, transport_asked, transport_refused, broke};
    ghost use Rattle.session_subset.specs.Reading.{after, new_state};
    ghost use Rattle.session_subset.specs.Requests.{may_request, refusal_of, alteration_refusal};
    ghost use Rattle.session_subset.specs.Takings.{taking, after_taking};
    ghost use Rattle.session_subset.specs.Asked.{holds_turn, step_of};

    /// A machine at the initiator or the responder of an association that isn't asked for yet, for
    /// reliable or direct mode.
    pub fn new(alloc: Global, initiator: bool, reliable: bool) -> Session
        ensures made { result ≡ record {
          role = record {
            initiator = initiator;
            reliable = reliable;
          };
          state = new_state (record {
            initiator = initiator;
            reliable = reliable;
          });
        } }
        ensures history { StandsFor result [] }
    {
        let role = SessionRole {
            initiator,
            reliable,
        };
        Session {
            alloc,
            role,
            state: new_state(role),
        }
    }

    /// What the machine knows: phase, units that are selected, turn, what is awaited and owed,
    /// marks and activities of both ends.
    pub fn state(&self) -> SessionState
        ensures { result ≡ self.now.state }
    {
        self.state
    }

    /// What the machine is made for.
    pub fn role(&self) -> SessionRole
        ensures { result ≡ self.now.role }
    {
        self.role
    }

    /// Whether this end holds the turn (in direct mode the minor token): it is here, the
    /// association stands, and no own restart is unanswered.
    pub fn holds_turn(&self) -> bool
        ensures { result ≡ holds_turn self.now.state }
    {
        self.state.turn
            && is_up(self.state.phase)
            && !matches!(self.state.awaited, Awaited::Restart(_))
    }

    /// Whether the conditions of `request` hold for this word.
    pub fn may_request(&self, word: &SessionWord) -> bool
        ensures { result ≡ may_request self.now.role self.now.state word.now }
    {
        self.state.may_request(self.role, word)
    }

    /// Why a request of this word would be refused now. An alteration of contexts, which goes as
    /// typed data, has its own question, `alteration_refusal`.
    pub fn refusal(&self, word: &SessionWord) -> Option<SessionRefusal>
        ensures { result ≡ refusal_of self.now.role self.now.state word.now }
    {
        self.state.refusal(self.role, word)
    }

    /// Why an alteration of contexts may not be asked for now.
    pub fn alteration_refusal(&self) -> Option<SessionRefusal>
        ensures { result ≡ alteration_refusal self.now.role self.now.state }
    {
        self.state.alteration_refusal(self.role)
    }

    /// Sends a word (X.225 7): answers the units of its TSDU. For an abort before a
    /// CONNECT was sent or taken on this connection there are none. Needed is that the phase allows
    /// the word, that each number in it is the next or the one that is named, and that a word that
    /// answers has a request that was taken and isn't answered; `may_request` asks so. A refusal is
    /// the first row of the word's conditions that fails, or `NoMemory`, and changes nothing.
    pub fn request(&mut self, word: SessionWord) -> Result<Spdus, SessionRefusal>
        requires { may_request self.old.role self.old.state word ≡ true }
        ensures refused { IfSome (refusal_of self.old.role self.old.state word) (λ refusal. result
            ≡ Err refusal) }
        ensures accepted { IfNone (refusal_of self.old.role self.old.state word) (MatchResult result
            (λ units. units ≡ units_sent self.old.state word) (λ refusal. refusal
            ≡ SessionRefusal.NoMemory)) }
        ensures state { MatchResult result (λ _. self.new ≡ record self.old {
          state = after self.old.role self.old.state (requested word);
        }) (λ _. self.new
            ≡ self.old) }
        // Where the machine stood for a history, it stands for it with the word sent.
        ensures history { (h : History) → StandsFor self.old h
            → OnOk result (StandsFor self.new (requested word ∷ h)) }
    {
        if let Some(refusal) = self.state.refusal(self.role, &word) {
            return Err(refusal);
        }
        let mut state = self.state;
        word_sent(self.role, &mut state, &word);
        let units = units_sent(self.alloc, self.state, word)?;
        self.state = state;
        Ok(units)
    }

    /// Takes a unit that came (X.225 7). It is passed over where an own request is unanswered and
    /// the unit isn't its answer, a restart that wins, a release or an abort; where it is a GT or
    /// PT without tokens in front of another; and in direct mode where it confirms a mark. Else it
    /// is taken, or out of place: of a unit that isn't selected, in a wrong phase, from an end
    /// without the turn or in another state of its activity, with a number that isn't due, an
    /// answer to nothing, a second request. What is passed over or out of place changes nothing.
    /// Takes no memory.
    pub fn take(&mut self, spdu: Spdu) -> Result<Taken, SessionFault>
        ensures answer { result ≡ taking self.old.role self.old.state spdu }
        ensures state { self.new ≡ record self.old {
          state = after_taking self.old.role self.old.state result;
        } }
        // Where the machine stood for a history, it stands for it with what came, unless it was out
        // of place.
        ensures history { (h : History) → StandsFor self.old h
            → OnOk result (StandsFor self.new (step_of spdu result ∷ h)) }
    {
        if is_purged(self.role, self.state.awaited, &spdu) || moves_nothing(&spdu) {
            return Ok(Taken::Passed);
        }
        if !self.state.may_take(self.role, &spdu) {
            return Err(SessionFault::OutOfPlace);
        }
        if is_idle_ack(self.role, &spdu) {
            return Ok(Taken::Passed);
        }
        word_taken(self.role, &mut self.state, &spdu);
        Ok(Taken::Word(spdu))
    }

    /// A transport connection was asked for: CR was sent, or taken.
    pub fn transport_asked(&mut self)
        ensures state { self.new ≡ record self.old {
          state = after self.old.role self.old.state transport_asked;
        } }
        ensures history { (h : History) → StandsFor self.old h → StandsFor self.new (transport_asked
            ∷ h) }
    {
        transport_asked(self.role, &mut self.state);
    }

    /// That connection was refused: DR was sent, or taken.
    pub fn transport_refused(&mut self)
        ensures state { self.new ≡ record self.old {
          state = after self.old.role self.old.state transport_refused;
        } }
        ensures history { (h : History) → StandsFor self.old h
            → StandsFor self.new (transport_refused ∷ h) }
    {
        transport_refused(self.role, &mut self.state);
    }

    /// The connection broke: an association of reliable mode that stood is to be recovered, and any
    /// other is over. An own activity in progress is suspended, the peer's is no longer in
    /// progress, nothing is awaited or owed; the activities' numbers and marks stay.
    pub fn broke(&mut self)
        ensures state { self.new ≡ record self.old {
          state = after self.old.role self.old.state broke;
        } }
        ensures history { (h : History) → StandsFor self.old h → StandsFor self.new (broke ∷ h) }
    {
        broke(self.role, &mut self.state);
    }
}
