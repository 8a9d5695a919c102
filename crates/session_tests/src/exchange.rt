//! Two machines, and the words between them, told as steps.

use Side::{A, B};
use osi_base::{Octets, SessionConnect, SessionWord, Side};
use session_subset::{
    Awaited, Owed, Progress, Session, SessionFault, SessionPhase, SessionRefusal, SessionState,
    Taken,
};
use std::alloc::Global;
use std::process::Abort;

/// A word. What isn't told of it is absent or empty.
#[derive(Clone, Copy)]
pub enum Word {
    /// CONNECT with these session user requirements, no options and version 2.
    Connect(u16),
    /// ACCEPT with the same.
    Accept(u16),
    /// ACCEPT with these requirements alone.
    BareAccept(u16),
    /// REFUSE with transport disconnect 1.
    Refuse,
    /// DATA TRANSFER.
    Data,
    /// FINISH with transport disconnect 1.
    Finish,
    /// DISCONNECT.
    Disconnect,
    /// ABORT with transport disconnect 3.
    Abort,
    /// MINOR SYNC POINT with this serial number, and its answer.
    Mark(u32),
    MarkAck(u32),
    /// RESYNCHRONIZE with this serial number, and its answer.
    Restart(u32),
    Restarted(u32),
    /// PLEASE TOKENS for the minor token.
    Please,
    /// GIVE TOKENS of these tokens.
    Give(Option<u8>),
    /// GIVE TOKENS CONFIRM, and its answer.
    GiveAll,
    GiveAllAck,
    /// ACTIVITY START with this number.
    Start(u32),
    /// ACTIVITY RESUME of this activity at this mark.
    Resume(u32, u32),
    /// ACTIVITY END with this serial number, and its answer.
    End(u32),
    EndAck(u32),
    /// ACTIVITY INTERRUPT with reason 0, and its answer.
    Interrupt,
    InterruptAck,
    /// ACTIVITY DISCARD with reason 0, and its answer.
    Discard,
    DiscardAck,
}

/// What a CONNECT says beside its user data.
pub fn connecting(alloc: Global, requirements: u16) -> SessionConnect {
    SessionConnect {
        calling_reference: None,
        common_reference: None,
        options: Some(0),
        version: Some(2),
        initial: None,
        token_setting: None,
        requirements: Some(requirements),
        calling: None,
        called: None,
        user: Octets::new(alloc),
    }
}

/// CONNECT with these session user requirements and no user data.
fn connect(alloc: Global, requirements: u16) -> SessionWord {
    SessionWord::Connect(connecting(alloc, requirements))
}

/// ACCEPT with these session user requirements and no user data.
fn accept(alloc: Global, requirements: u16) -> SessionWord {
    SessionWord::Accept {
        options: Some(0),
        version: Some(2),
        initial: None,
        requirements: Some(requirements),
        user: Octets::new(alloc),
    }
}

/// The same without options and version.
fn bare_accept(alloc: Global, requirements: u16) -> SessionWord {
    SessionWord::Accept {
        options: None,
        version: None,
        initial: None,
        requirements: Some(requirements),
        user: Octets::new(alloc),
    }
}

fn refuse() -> SessionWord {
    SessionWord::Refuse {
        transport: Some(1),
        reason: None,
        user: None,
    }
}

fn some_data(alloc: Global) -> SessionWord {
    SessionWord::Data {
        user: Octets::new(alloc),
    }
}

fn finish(alloc: Global) -> SessionWord {
    SessionWord::Finish {
        transport: Some(1),
        user: Octets::new(alloc),
    }
}

fn disconnect(alloc: Global) -> SessionWord {
    SessionWord::Disconnect {
        user: Octets::new(alloc),
    }
}

fn abort() -> SessionWord {
    SessionWord::Abort {
        transport: Some(3),
        user: None,
    }
}

fn please() -> SessionWord {
    SessionWord::PleaseTokens {
        tokens: Some(4),
        user: None,
    }
}

/// The word that is told.
pub fn session_word(alloc: Global, told: Word) -> SessionWord {
    match told {
        Word::Connect(requirements) => connect(alloc, requirements),
        Word::Accept(requirements) => accept(alloc, requirements),
        Word::BareAccept(requirements) => bare_accept(alloc, requirements),
        Word::Refuse => refuse(),
        Word::Data => some_data(alloc),
        Word::Finish => finish(alloc),
        Word::Disconnect => disconnect(alloc),
        Word::Abort => abort(),
        Word::Mark(number) => SessionWord::Mark { number },
        Word::MarkAck(number) => SessionWord::MarkAck { number },
        Word::Restart(number) => SessionWord::Resynchronize { number, user: None },
        Word::Restarted(number) => SessionWord::ResynchronizeAck { number, user: None },
        Word::Please => please(),
        Word::Give(tokens) => SessionWord::GiveTokens { tokens },
        Word::GiveAll => SessionWord::GiveTokensConfirm,
        Word::GiveAllAck => SessionWord::GiveTokensAck,
        Word::Start(activity) => SessionWord::ActivityStart { activity },
        Word::Resume(activity, mark) => SessionWord::ActivityResume { activity, mark },
        Word::End(number) => SessionWord::ActivityEnd { number },
        Word::EndAck(number) => SessionWord::ActivityEndAck { number },
        Word::Interrupt => SessionWord::ActivityInterrupt { reason: Some(0) },
        Word::InterruptAck => SessionWord::ActivityInterruptAck,
        Word::Discard => SessionWord::ActivityDiscard { reason: Some(0) },
        Word::DiscardAck => SessionWord::ActivityDiscardAck,
    }
}

/// The units that this end sends for a word.
pub fn sent(rt: &impl Abort, from: &mut Session, word: SessionWord) -> Vec<SessionWord> {
    assert!(rt; from.may_request(&word), "the conditions of {word:?} hold");
    from.request(word).expect(rt, "the word is sent").into_vec()
}

/// What becomes of a unit that comes.
#[derive(Clone, Copy)]
enum Fate {
    Taken,
    Passed,
    OutOfPlace,
    NoMemory,
}

fn fate_of(to: &mut Session, unit: SessionWord) -> Fate {
    let taken = to.take(unit);
    let fate = match &taken {
        Ok(Taken::Word(_)) => Fate::Taken,
        Ok(Taken::Passed) => Fate::Passed,
        Err(SessionFault::OutOfPlace) => Fate::OutOfPlace,
        Err(SessionFault::NoMemory) => Fate::NoMemory,
    };
    drop(taken);
    fate
}

/// Whether a unit is taken, and not passed over; it is in place.
fn takes(rt: &impl Abort, to: &mut Session, unit: SessionWord) -> bool {
    match fate_of(to, unit) {
        Fate::Taken => true,
        Fate::Passed => false,
        _ => panic!(rt; "the unit is in place"),
    }
}

/// Whether the units are taken, and not all passed over; none is out of place.
pub fn is_taken(rt: &impl Abort, to: &mut Session, units: Vec<SessionWord>) -> bool {
    let mut taken = false;
    for unit in units {
        taken = takes(rt, to, unit) || taken;
    }
    taken
}

/// Sends a word, which is taken.
fn pass(rt: &impl Abort, from: &mut Session, to: &mut Session, word: SessionWord) {
    let units = sent(rt, from, word);
    assert!(rt; is_taken(rt, to, units), "the word is taken");
}

/// Whether a unit that comes is out of place.
fn is_out_of_place(to: &mut Session, word: SessionWord) -> bool {
    match fate_of(to, word) {
        Fate::OutOfPlace => true,
        _ => false,
    }
}

/// Whether a unit that comes is passed over.
fn is_passed(to: &mut Session, word: SessionWord) -> bool {
    match fate_of(to, word) {
        Fate::Passed => true,
        _ => false,
    }
}

/// A request of this word is refused so, and changes nothing.
fn refused(rt: &impl Abort, from: &mut Session, word: SessionWord, why: SessionRefusal) {
    let before = from.state();
    assert!(rt; from.may_request(&word), "the conditions of {word:?} hold");
    assert!(rt; from.refusal(&word) == Some(why));
    assert!(rt; from.request(word).err() == Some(why));
    assert!(rt; from.state() == before);
}

/// How many units this end sends for a word; they are lost.
fn lost(rt: &impl Abort, from: &mut Session, word: SessionWord) -> usize {
    let units = sent(rt, from, word);
    let count = units.len();
    drop(units);
    count
}

/// An initiator and a responder.
#[derive(Drop)]
pub struct Both {
    pub a: Session,
    pub b: Session,
}

/// One of them.
fn end(both: &mut Both, side: Side) -> &mut Session {
    match side {
        A => &mut both.a,
        B => &mut both.b,
    }
}

/// What holds of an end.
#[derive(Clone, Copy)]
pub enum State {
    Phase(SessionPhase),
    Awaits(Awaited),
    Owes(Owed),
    /// Its last mark in direct mode is this one.
    Marked(u32),
    /// How far its own activity has come.
    Own(Progress),
    /// The highest mark that the peer has confirmed.
    Confirmed(u32),
    /// The number of the peer's activity.
    Peer(u32),
    /// The last mark of the peer that is kept.
    Kept(u32),
    /// It gave the turn, which isn't confirmed.
    Gives,
}

/// What the ends do, or what then holds.
#[derive(Clone, Copy)]
pub enum Step {
    /// An end sends a word, which the other takes.
    Passes(Side, Word),
    /// An end sends a word in so many units, which are lost.
    Loses(Side, Word, usize),
    /// A request of an end is refused so, and changes nothing.
    Refused(Side, Word, SessionRefusal),
    /// A unit that comes to an end is out of place.
    OutOfPlace(Side, Word),
    /// A unit that comes to an end is passed over.
    PassedOver(Side, Word),
    /// The connection of an end breaks.
    Breaks(Side),
    /// An end asks for a transport connection.
    Connects(Side),
    /// That is refused.
    Denied(Side),
    Is(Side, State),
    /// Whether A and whether B holds the turn.
    Turn(bool, bool),
    /// Why an end may not ask for an alteration of contexts now.
    NoAlteration(Side, SessionRefusal),
}

fn is(state: SessionState, wanted: State) -> bool {
    match wanted {
        State::Phase(phase) => state.phase == phase,
        State::Awaits(awaited) => state.awaited == awaited,
        State::Owes(owed) => state.owed == owed,
        State::Marked(mark) => state.mark == mark,
        State::Own(progress) => state.own.progress == progress,
        State::Confirmed(mark) => state.own.confirmed == mark,
        State::Peer(number) => state.peer.number == number,
        State::Kept(marks) => state.peer.marks == marks,
        State::Gives => state.giving,
    }
}

/// Passes a word from this end to the other.
fn pass_from(rt: &impl Abort, both: &mut Both, side: Side, word: SessionWord) {
    match side {
        A => pass(rt, &mut both.a, &mut both.b, word),
        B => pass(rt, &mut both.b, &mut both.a, word),
    }
}

/// Whether a step goes as it should.
fn goes(rt: &impl Abort, alloc: Global, both: &mut Both, step: &Step) -> bool {
    match step {
        Step::Passes(side, told) => {
            pass_from(rt, both, *side, session_word(alloc, *told));
            true
        }
        Step::Loses(side, told, count) => {
            lost(rt, end(both, *side), session_word(alloc, *told)) == *count
        }
        Step::Refused(side, told, why) => {
            refused(rt, end(both, *side), session_word(alloc, *told), *why);
            true
        }
        Step::OutOfPlace(side, told) => is_out_of_place(
            end(both, *side),
            session_word(alloc, *told),
        ),
        Step::PassedOver(side, told) => is_passed(end(both, *side), session_word(alloc, *told)),
        Step::Breaks(side) => {
            end(both, *side).broke();
            true
        }
        Step::Connects(side) => {
            end(both, *side).transport_asked();
            true
        }
        Step::Denied(side) => {
            end(both, *side).transport_refused();
            true
        }
        Step::Is(side, wanted) => is(end(both, *side).state(), *wanted),
        Step::Turn(a, b) => both.a.holds_turn() == *a && both.b.holds_turn() == *b,
        Step::NoAlteration(side, why) => end(both, *side).alteration_refusal() == Some(*why),
    }
}

/// Each step goes as it should.
pub fn go(rt: &impl Abort, alloc: Global, both: &mut Both, shows: &str, steps: &[Step]) {
    for (place, step) in steps.iter().enumerate() {
        assert!(rt; goes(rt, alloc, both, step), "{shows}, step {place}");
    }
}

/// Two machines of which neither has sent anything.
pub fn two_ends(alloc: Global, reliable: bool) -> Both {
    Both {
        a: Session::new(alloc, true, reliable),
        b: Session::new(alloc, false, reliable),
    }
}

/// Opens the association of two machines of which neither has sent anything on this connection.
pub fn join(rt: &impl Abort, alloc: Global, requirements: u16, both: &mut Both) {
    pass_from(rt, both, A, connect(alloc, requirements));
    pass_from(rt, both, B, accept(alloc, requirements));
}

/// An initiator and a responder in direct mode, whose association stands, with the requirements
/// 042A: duplex, minor synchronize, resynchronize and typed data (X.225 8.3.1).
pub fn direct(rt: &impl Abort, alloc: Global) -> Both {
    let mut both = two_ends(alloc, false);
    join(rt, alloc, 0x042A, &mut both);
    both
}

/// The same in reliable mode, with 0449: half-duplex, minor synchronize, activity management and
/// typed data.
pub fn reliable(rt: &impl Abort, alloc: Global) -> Both {
    let mut both = two_ends(alloc, true);
    join(rt, alloc, 0x0449, &mut both);
    both
}

/// Each step goes as it should in direct mode.
pub fn go_direct(rt: &impl Abort, alloc: Global, steps: &[Step]) {
    let mut both = direct(rt, alloc);
    go(rt, alloc, &mut both, "direct mode", steps);
    drop(both);
}

/// Each step goes as it should in reliable mode.
pub fn go_reliable(rt: &impl Abort, alloc: Global, steps: &[Step]) {
    let mut both = reliable(rt, alloc);
    go(rt, alloc, &mut both, "reliable mode", steps);
    drop(both);
}
