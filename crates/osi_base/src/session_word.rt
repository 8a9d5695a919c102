//! The units of the session protocol (X.225 8.3), with the parameters that are read or written.

use crate::list::ListOf;
use crate::octets::Octets;

/// The parameters of a CONNECT unit, CN (X.225 8.3.1). One that isn't there is `None`.
#[derive(Debug, Drop)]
pub struct SessionConnect {
    /// Connection identifier, calling user's reference (10).
    pub calling_reference: Option<Octets>,
    /// Connection identifier, common reference (11).
    pub common_reference: Option<Octets>,
    /// Protocol options (19), a bit for each: 1 where extended concatenation is read. An end writes
    /// 0.
    pub options: Option<u8>,
    /// Version number (22), a bit for each: 1 version 1, 2 version 2. An end writes 2.
    pub version: Option<u8>,
    /// Initial serial number (23), 1 to 999,999.
    pub initial: Option<u32>,
    /// Token setting (26), two bits for each token, from the low end data, minor, major or
    /// activity, release: 1 puts it at the responder.
    pub token_setting: Option<u8>,
    /// Session user requirements (20), a bit for each functional unit: 1 half-duplex, 2 duplex, 8
    /// minor synchronize, 32 resynchronize, 64 activities, 1,024 typed data.
    pub requirements: Option<u16>,
    /// Calling session selector (51).
    pub calling: Option<Octets>,
    /// Called session selector (52).
    pub called: Option<Octets>,
    /// User data (193) or extended user data (194), at most 10,240 octets.
    pub user: Octets,
}

/// One unit of the session protocol. A parameter that isn't there is `None`.
#[derive(Debug, Drop)]
pub enum SessionWord {
    /// CONNECT, CN.
    Connect(SessionConnect),
    /// ACCEPT, AC.
    Accept {
        /// Protocol options (19), a bit for each: 1 where extended concatenation is read. An end
        /// writes 0.
        options: Option<u8>,
        /// Version number (22), a bit for each: 1 version 1, 2 version 2. An end writes 2.
        version: Option<u8>,
        /// Initial serial number (23), 1 to 999,999.
        initial: Option<u32>,
        /// Session user requirements (20), a bit for each functional unit: 1 half-duplex, 2 duplex,
        /// 8 minor synchronize, 32 resynchronize, 64 activities, 1,024 typed data.
        requirements: Option<u16>,
        /// User data (193).
        user: Octets,
    },
    /// REFUSE, RF.
    Refuse {
        /// Transport disconnect (17): 1 releases the transport connection. An end writes 1.
        transport: Option<u8>,
        /// The code of the reason (50): 2 is the called user's rejection, with user data behind it.
        /// An end writes 2.
        reason: Option<u8>,
        /// The user data of the reason (50).
        user: Option<Octets>,
    },
    /// FINISH, FN.
    Finish {
        /// Transport disconnect (17): 1 releases the transport connection. An end writes 1.
        transport: Option<u8>,
        /// User data (193).
        user: Octets,
    },
    /// DISCONNECT, DN.
    Disconnect {
        /// User data (193).
        user: Octets,
    },
    /// ABORT, AB.
    Abort {
        /// Transport disconnect (17): 1 release, 2 user abort, 4 protocol error, added up. An end
        /// writes 3 or 5.
        transport: Option<u8>,
        /// User data (193).
        user: Option<Octets>,
    },
    /// ABORT ACCEPT, AA.
    AbortAccept,
    /// GIVE TOKENS, GT.
    GiveTokens {
        /// Token item (16): 1 data, 4 minor, 16 major or activity, added up. An end writes 4, or no
        /// item in front of another unit.
        tokens: Option<u8>,
    },
    /// PLEASE TOKENS, PT.
    PleaseTokens {
        /// Token item (16): 1 data, 4 minor, 16 major or activity, added up. An end writes 4 or 21.
        tokens: Option<u8>,
        /// User data (193).
        user: Option<Octets>,
    },
    /// GIVE TOKENS CONFIRM, GTC.
    GiveTokensConfirm,
    /// GIVE TOKENS ACK, GTA.
    GiveTokensAck,
    /// TYPED DATA, TD.
    TypedData {
        /// User information.
        user: Octets,
    },
    /// DATA TRANSFER, DT.
    Data {
        /// User information.
        user: Octets,
    },
    /// MINOR SYNC POINT, MIP.
    Mark {
        /// Serial number (42), 1 to 999,999.
        number: u32,
    },
    /// MINOR SYNC ACK, MIA.
    MarkAck {
        /// Serial number (42), 1 to 999,999.
        number: u32,
    },
    /// RESYNCHRONIZE, RS, as a restart.
    Resynchronize {
        /// Serial number (42), 1 to 999,999.
        number: u32,
        /// User data (193).
        user: Option<Octets>,
    },
    /// RESYNCHRONIZE ACK, RA.
    ResynchronizeAck {
        /// Serial number (42), 1 to 999,999.
        number: u32,
        /// User data (193).
        user: Option<Octets>,
    },
    /// ACTIVITY START, AS.
    ActivityStart {
        /// Activity identifier (41), 1 to 999,999.
        activity: u32,
    },
    /// ACTIVITY RESUME, AR.
    ActivityResume {
        /// Activity identifier (41), which is the old one too, 1 to 999,999.
        activity: u32,
        /// The serial number of the mark (42 of 33), 0 to 999,999.
        mark: u32,
    },
    /// ACTIVITY INTERRUPT, AI.
    ActivityInterrupt {
        /// Reason (50): 0 no reason, which an end writes; others as X.225 numbers them.
        reason: Option<u8>,
    },
    /// ACTIVITY INTERRUPT ACK, AIA.
    ActivityInterruptAck,
    /// ACTIVITY DISCARD, AD.
    ActivityDiscard {
        /// Reason (50): 0 no reason, which an end writes; others as X.225 numbers them.
        reason: Option<u8>,
    },
    /// ACTIVITY DISCARD ACK, ADA.
    ActivityDiscardAck,
    /// ACTIVITY END, AE.
    ActivityEnd {
        /// Serial number (42), 1 to 999,999.
        number: u32,
    },
    /// ACTIVITY END ACK, AEA.
    ActivityEndAck {
        /// Serial number (42), 1 to 999,999.
        number: u32,
    },
}

/// A unit of the session protocol.
pub type Spdu = SessionWord;

/// Units in the order in which they stand in one TSDU.
pub type Spdus = ListOf<SessionWord>;
