//! What a session machine knows of its association.

use crate::units::FunctionalUnits;

/// What a machine is made for: the initiator's or the responder's, and the mode.
#[derive(Clone, Copy, Debug, PartialEq, Eq)]
pub struct SessionRole {
    /// It opens the association, and alone recovers and releases it.
    pub initiator: bool,
    /// Data go as activities between ends that take turns; else as they come, with marks and
    /// restarts.
    pub reliable: bool,
}

/// How far an association has come.
#[derive(Clone, Copy, Debug, PartialEq, Eq)]
pub enum SessionPhase {
    /// Nothing was asked yet.
    Idle,
    /// A connection was asked for, and isn't accepted or refused yet.
    Opening,
    /// It was accepted.
    Up,
    /// This end asked for its release.
    Releasing,
    /// The connection broke, and the association stays to be recovered.
    Broken,
    /// This end asked for a new connection that recovers it.
    Recovering,
    /// It has ended.
    Over,
}

/// The own request that isn't answered yet: until it is, the machine sends no other request but an
/// abort (X.225 7.24, 7.31, 7.33).
#[derive(Clone, Copy, Debug, PartialEq, Eq)]
pub enum Awaited {
    /// No such request was sent.
    Nothing,
    /// RS with this number; its answer is RA.
    Restart(u32),
    /// AI; its answer is AIA.
    Interrupt,
    /// AD; its answer is ADA.
    Discard,
    /// FN; its answer is DN.
    Release,
}

/// The peer's request that this end has taken and not answered yet.
#[derive(Clone, Copy, Debug, PartialEq, Eq)]
pub enum Owed {
    /// No such request was taken.
    Nothing,
    /// CN; its answer is AC or RF.
    Connect,
    /// RS with this number; its answer is RA.
    Restart(u32),
    /// AE with this number; its answer is AEA.
    End(u32),
    /// AI; its answer is AIA.
    Interrupt,
    /// AD; its answer is ADA.
    Discard,
    /// GTC; its answer is GTA.
    Give,
    /// FN; its answer is DN.
    Release,
}

/// How far the current activity of this end has come.
#[derive(Clone, Copy, Debug, PartialEq, Eq)]
pub enum Progress {
    /// There is none: none was started, or the last was ended or discarded.
    Absent,
    /// It goes on.
    Running,
    /// AE was sent and isn't answered yet.
    Ending,
    /// It was interrupted, or the connection broke.
    Suspended,
}

/// The last activity that this end started.
#[derive(Clone, Copy, Debug, PartialEq, Eq)]
pub struct OwnActivity {
    /// Its number, 0 where there was none.
    pub number: u32,
    /// How far it has come.
    pub progress: Progress,
    /// Its last mark, 0 where there is none.
    pub marks: u32,
    /// Its highest mark that the peer has confirmed.
    pub confirmed: u32,
}

/// The last activity that the peer started.
#[derive(Clone, Copy, Debug, PartialEq, Eq)]
pub struct PeerActivity {
    /// Its number, 0 where there was none.
    pub number: u32,
    /// It was started or resumed, and neither ended, interrupted nor discarded since.
    pub active: bool,
    /// Its last mark that is kept, 0 where there is none.
    pub marks: u32,
    /// Its highest mark that this end has confirmed.
    pub confirmed: u32,
}

/// All that a session machine knows of its association.
#[derive(Clone, Copy, Debug, PartialEq, Eq)]
pub struct SessionState {
    /// How far the association has come.
    pub phase: SessionPhase,
    /// A CONNECT was sent or taken on this connection.
    pub met: bool,
    /// The requirements of the CONNECT that was sent or taken last (parameter 20).
    pub proposed: u16,
    /// The functional units that are selected.
    pub units: FunctionalUnits,
    /// The turn is at this end: in direct mode the minor token, in reliable mode all tokens.
    pub turn: bool,
    /// This end gave the turn by GTC, and GTA hasn't come.
    pub giving: bool,
    /// The own request that isn't answered yet.
    pub awaited: Awaited,
    /// The peer's request that this end hasn't answered yet.
    pub owed: Owed,
    /// Direct mode: the number of the last mark, 0 where there is none.
    pub mark: u32,
    /// The last activity that this end started.
    pub own: OwnActivity,
    /// The last activity that the peer started.
    pub peer: PeerActivity,
}
