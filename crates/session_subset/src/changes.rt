//! What each word changes of what a machine knows, as it is sent and as it is taken (X.225 7).

ghost use Rattle.std.specs.Prelude.{◌≡◌, ◌-◌, true, false, if◌then◌else◌};
ghost use Rattle.session_subset.specs.Steps.{requested, took, transport_asked, transport_refused, broke};
ghost use Rattle.session_subset.specs.Units.{requirements_of, selected};
ghost use Rattle.session_subset.specs.Reading.{after, new_state, asking, asked, asked_by, refused, broken, suspended};

use crate::state::{
    Awaited, Owed, OwnActivity, PeerActivity, Progress, SessionPhase, SessionRole, SessionState,
};
use crate::units::{FunctionalUnits, selected};
use osi_base::{SessionConnect, SessionWord};

/// What a new machine knows.
pub fn new_state(role: SessionRole) -> SessionState
    ensures { result ≡ new_state role }
{
    SessionState {
        phase: SessionPhase::Idle,
        met: false,
        proposed: 0,
        units: FunctionalUnits {
            half_duplex: false,
            duplex: false,
            minor_synchronize: false,
            resynchronize: false,
            activity_management: false,
            typed_data: false,
        },
        turn: role.initiator,
        giving: false,
        awaited: Awaited::Nothing,
        owed: Owed::Nothing,
        mark: 0,
        own: OwnActivity {
            number: 0,
            progress: Progress::Absent,
            marks: 0,
            confirmed: 0,
        },
        peer: PeerActivity {
            number: 0,
            active: false,
            marks: 0,
            confirmed: 0,
        },
    }
}

/// The phase after a connection was asked for by this end.
fn asking(phase: SessionPhase) -> SessionPhase
    ensures { result ≡ asking phase }
{
    match phase {
        SessionPhase::Idle => SessionPhase::Opening,
        SessionPhase::Broken => SessionPhase::Recovering,
        other => other,
    }
}

/// The phase after a connection was asked for by the peer.
fn asked(phase: SessionPhase) -> SessionPhase
    ensures { result ≡ asked phase }
{
    match phase {
        SessionPhase::Idle => SessionPhase::Opening,
        other => other,
    }
}

/// The phase after a connection that was asked for is refused.
fn refused(phase: SessionPhase) -> SessionPhase
    ensures { result ≡ refused phase }
{
    match phase {
        SessionPhase::Opening | SessionPhase::Recovering => SessionPhase::Over,
        other => other,
    }
}

/// The phase after a break.
fn broken(reliable: bool, phase: SessionPhase) -> SessionPhase
    ensures { result ≡ broken reliable phase }
{
    match phase {
        SessionPhase::Idle => SessionPhase::Idle,
        SessionPhase::Over | SessionPhase::Opening => SessionPhase::Over,
        _ if reliable => SessionPhase::Broken,
        _ => SessionPhase::Over,
    }
}

/// A transport connection was asked for, by the initiator.
pub fn transport_asked(role: SessionRole, state: &mut SessionState)
    ensures { state.new ≡ after role state.old transport_asked }
{
    state.phase = if role.initiator {
        asking(state.phase)
    } else {
        asked(state.phase)
    };
}

/// That transport connection was refused.
pub fn transport_refused(role: SessionRole, state: &mut SessionState)
    ensures { state.new ≡ after role state.old transport_refused }
{
    state.phase = refused(state.phase);
}

/// A break suspends what was in progress.
fn suspended(progress: Progress) -> Progress
    ensures { result ≡ suspended progress }
{
    match progress {
        Progress::Absent => Progress::Absent,
        _ => Progress::Suspended,
    }
}

/// The connection broke.
pub fn broke(role: SessionRole, state: &mut SessionState)
    ensures { state.new ≡ after role state.old broke }
{
    state.phase = broken(role.reliable, state.phase);
    state.met = false;
    state.giving = false;
    state.awaited = Awaited::Nothing;
    state.owed = Owed::Nothing;
    state.own.progress = suspended(state.own.progress);
    state.peer.active = false;
}

/// CN, of either end, with its requirements.
fn met(state: &mut SessionState, connect: &SessionConnect)
    ensures { state.new ≡ record state.old {
      met = true;
      proposed = requirements_of connect.now.requirements;
    } }
{
    state.met = true;
    state.proposed = connect.requirements.unwrap_or(0);
}

fn connect_sent(role: SessionRole, state: &mut SessionState, connect: &SessionConnect)
    ensures { state.new ≡ after role state.old (requested (SessionWord.Connect connect.now)) }
{
    met(state, connect);
    state.phase = asking(state.phase);
}

fn connect_taken(role: SessionRole, state: &mut SessionState, connect: &SessionConnect)
    ensures { state.new ≡ after role state.old (took (SessionWord.Connect connect.now)) }
{
    met(state, connect);
    state.phase = asked(state.phase);
    state.owed = Owed::Connect;
}

/// AC, of either end: the association stands, with the turn at the initiator.
fn accepted(role: SessionRole, state: &mut SessionState, requirements: Option<u16>)
    ensures { state.new ≡ record state.old {
      phase = SessionPhase.Up;
      units = selected role.reliable state.old.proposed (requirements_of requirements);
      turn = role.initiator;
      giving = false;
      awaited = Awaited.Nothing;
      owed = Owed.Nothing;
      mark = 0;
    } }
{
    state.phase = SessionPhase::Up;
    state.units = selected(role.reliable, state.proposed, requirements.unwrap_or(0));
    state.turn = role.initiator;
    state.giving = false;
    state.awaited = Awaited::Nothing;
    state.owed = Owed::Nothing;
    state.mark = 0;
}

fn refuse_sent(state: &mut SessionState)
    ensures { state.new ≡ record state.old {
      phase = refused state.old.phase;
      owed = Owed.Nothing;
    } }
{
    state.phase = refused(state.phase);
    state.owed = Owed::Nothing;
}

fn finish_sent(state: &mut SessionState)
    ensures { state.new ≡ record state.old {
      phase = SessionPhase.Releasing;
      awaited = Awaited.Release;
    } }
{
    state.phase = SessionPhase::Releasing;
    state.awaited = Awaited::Release;
}

fn disconnect_sent(state: &mut SessionState)
    ensures { state.new ≡ record state.old { phase = SessionPhase.Over; owed = Owed.Nothing } }
{
    state.phase = SessionPhase::Over;
    state.owed = Owed::Nothing;
}

fn disconnect_taken(state: &mut SessionState)
    ensures { state.new ≡ record state.old {
      phase = SessionPhase.Over;
      awaited = Awaited.Nothing;
    } }
{
    state.phase = SessionPhase::Over;
    state.awaited = Awaited::Nothing;
}

/// GTC: the turn is on its way.
fn give_sent(state: &mut SessionState)
    ensures { state.new ≡ record state.old { turn = false; giving = true } }
{
    state.turn = false;
    state.giving = true;
}

fn give_taken(state: &mut SessionState)
    ensures { state.new ≡ record state.old { turn = true; giving = false; owed = Owed.Give } }
{
    state.turn = true;
    state.giving = false;
    state.owed = Owed::Give;
}

fn mark_sent(role: SessionRole, state: &mut SessionState, number: u32)
    ensures { state.new ≡ after role state.old (requested (SessionWord.Mark number)) }
{
    if role.reliable {
        state.own.marks = number;
    } else {
        state.mark = number;
    }
}

fn mark_taken(role: SessionRole, state: &mut SessionState, number: u32)
    ensures { state.new ≡ after role state.old (took (SessionWord.Mark number)) }
{
    if role.reliable {
        state.peer.marks = number;
    } else {
        state.mark = number;
    }
}

/// RS: an own restart that crosses it has lost.
fn restart_taken(state: &mut SessionState, number: u32)
    ensures { state.new ≡ record state.old {
      awaited = Awaited.Nothing;
      owed = Owed.Restart number;
    } }
{
    state.awaited = Awaited::Nothing;
    state.owed = Owed::Restart(number);
}

/// RA, of either end: the marks from this number on are dropped, and the turn is at the initiator.
fn restarted(role: SessionRole, state: &mut SessionState, number: u32)
    ensures { state.new ≡ record state.old { turn = role.initiator; mark = number - 1 } }
{
    state.turn = role.initiator;
    state.mark = number.saturating_sub(1);
}

fn restart_answered(role: SessionRole, state: &mut SessionState, number: u32)
    ensures { state.new ≡ record state.old {
      turn = role.initiator;
      mark = number - 1;
      owed = Owed.Nothing;
    } }
{
    restarted(role, state, number);
    state.owed = Owed::Nothing;
}

fn restart_answer_taken(role: SessionRole, state: &mut SessionState, number: u32)
    ensures { state.new ≡ record state.old {
      turn = role.initiator;
      mark = number - 1;
      awaited = Awaited.Nothing;
    } }
{
    restarted(role, state, number);
    state.awaited = Awaited::Nothing;
}

fn own_started(state: &mut SessionState, activity: u32)
    ensures { state.new ≡ record state.old {
      own = record {
        number = activity;
        progress = Progress.Running;
        marks = 0;
        confirmed = 0;
      };
    } }
{
    state.own = OwnActivity {
        number: activity,
        progress: Progress::Running,
        marks: 0,
        confirmed: 0,
    };
}

fn peer_started(state: &mut SessionState, activity: u32, mark: u32)
    ensures { state.new ≡ record state.old {
      peer = record {
        number = activity;
        active = true;
        marks = mark;
        confirmed = mark;
      };
    } }
{
    state.peer = PeerActivity {
        number: activity,
        active: true,
        marks: mark,
        confirmed: mark,
    };
}

fn own_resumed(state: &mut SessionState, mark: u32)
    ensures { state.new ≡ record state.old {
      own = record state.old.own {
        progress = Progress.Running;
        marks = mark;
      };
    } }
{
    state.own.progress = Progress::Running;
    state.own.marks = mark;
}

/// AD: what was confirmed is void.
fn discard_sent(state: &mut SessionState)
    ensures { state.new ≡ record state.old {
      awaited = Awaited.Discard;
      own = record state.old.own {
        confirmed = 0;
      };
    } }
{
    state.awaited = Awaited::Discard;
    state.own.confirmed = 0;
}

/// AD: of the activity only the number stays.
fn discard_taken(state: &mut SessionState)
    ensures { state.new ≡ record state.old {
      owed = Owed.Discard;
      peer = record state.old.peer {
        active = false;
        marks = 0;
        confirmed = 0;
      };
    } }
{
    state.owed = Owed::Discard;
    state.peer.active = false;
    state.peer.marks = 0;
    state.peer.confirmed = 0;
}

/// AI or AE: the peer's activity is no longer in progress, and this answer is owed.
fn peer_stopped(state: &mut SessionState, owed: Owed)
    ensures { state.new ≡ record state.old {
      owed = owed;
      peer = record state.old.peer {
        active = false;
      };
    } }
{
    state.owed = owed;
    state.peer.active = false;
}

/// AIA or ADA: the own activity is so.
fn own_stopped(state: &mut SessionState, progress: Progress)
    ensures { state.new ≡ record state.old {
      awaited = Awaited.Nothing;
      own = record state.old.own {
        progress = progress;
      };
    } }
{
    state.awaited = Awaited::Nothing;
    state.own.progress = progress;
}

/// What the sending of a word changes.
pub fn word_sent(role: SessionRole, state: &mut SessionState, word: &SessionWord)
    ensures { state.new ≡ after role state.old (requested word.now) }
{
    match word {
        SessionWord::Connect(connect) => connect_sent(role, state, connect),
        SessionWord::Accept { requirements, .. } => accepted(role, state, *requirements),
        SessionWord::Refuse { .. } => refuse_sent(state),
        SessionWord::Finish { .. } => finish_sent(state),
        SessionWord::Disconnect { .. } => disconnect_sent(state),
        SessionWord::Abort { .. } => state.phase = SessionPhase::Over,
        SessionWord::GiveTokens { tokens: Some(_) } => state.turn = false,
        SessionWord::GiveTokensConfirm => give_sent(state),
        SessionWord::GiveTokensAck
        | SessionWord::ActivityInterruptAck
        | SessionWord::ActivityDiscardAck
        | SessionWord::ActivityEndAck { .. } => state.owed = Owed::Nothing,
        SessionWord::Mark { number } => mark_sent(role, state, *number),
        SessionWord::MarkAck { number } => state.peer.confirmed = *number,
        SessionWord::Resynchronize { number, .. } => state.awaited = Awaited::Restart(*number),
        SessionWord::ResynchronizeAck { number, .. } => restart_answered(role, state, *number),
        SessionWord::ActivityStart { activity } => own_started(state, *activity),
        SessionWord::ActivityResume { mark, .. } => own_resumed(state, *mark),
        SessionWord::ActivityInterrupt { .. } => state.awaited = Awaited::Interrupt,
        SessionWord::ActivityDiscard { .. } => discard_sent(state),
        SessionWord::ActivityEnd { .. } => state.own.progress = Progress::Ending,
        SessionWord::AbortAccept
        | SessionWord::GiveTokens { tokens: None }
        | SessionWord::PleaseTokens { .. }
        | SessionWord::TypedData { .. }
        | SessionWord::Data { .. } => {}
    }
}

/// What the taking of a word changes.
pub fn word_taken(role: SessionRole, state: &mut SessionState, word: &SessionWord)
    ensures { state.new ≡ after role state.old (took word.now) }
{
    match word {
        SessionWord::Connect(connect) => connect_taken(role, state, connect),
        SessionWord::Accept { requirements, .. } => accepted(role, state, *requirements),
        SessionWord::Refuse { .. } => state.phase = refused(state.phase),
        SessionWord::Finish { .. } => state.owed = Owed::Release,
        SessionWord::Disconnect { .. } => disconnect_taken(state),
        SessionWord::Abort { .. } | SessionWord::AbortAccept => state.phase = SessionPhase::Over,
        SessionWord::GiveTokens { tokens: Some(_) } => state.turn = true,
        SessionWord::GiveTokensConfirm => give_taken(state),
        SessionWord::GiveTokensAck => state.giving = false,
        SessionWord::Mark { number } => mark_taken(role, state, *number),
        SessionWord::MarkAck { number } => state.own.confirmed = *number,
        SessionWord::Resynchronize { number, .. } => restart_taken(state, *number),
        SessionWord::ResynchronizeAck { number, .. } => restart_answer_taken(role, state, *number),
        SessionWord::ActivityStart { activity } => peer_started(state, *activity, 0),
        SessionWord::ActivityResume { activity, mark } => peer_started(state, *activity, *mark),
        SessionWord::ActivityInterrupt { .. } => peer_stopped(state, Owed::Interrupt),
        SessionWord::ActivityInterruptAck => own_stopped(state, Progress::Suspended),
        SessionWord::ActivityDiscard { .. } => discard_taken(state),
        SessionWord::ActivityDiscardAck => own_stopped(state, Progress::Absent),
        SessionWord::ActivityEnd { number } => peer_stopped(state, Owed::End(*number)),
        SessionWord::ActivityEndAck { .. } => state.own.progress = Progress::Absent,
        SessionWord::GiveTokens { tokens: None }
        | SessionWord::PleaseTokens { .. }
        | SessionWord::TypedData { .. }
        | SessionWord::Data { .. } => {}
    }
}
