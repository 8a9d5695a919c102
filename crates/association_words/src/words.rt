//! Messages: what the units of the transport, the session and the presentation say, without their
//! octets. User data of the words of the layers are left empty: what they mean stands beside them.

use crate::values::Values;
use osi_base::{
    Answers, Ids, Octets, PresentationAccept, PresentationConnect, PresentationReject, Proposals,
    RestoredList, SessionConnect,
};

/// A transport unit that carries no data: CR, CC, DR or ER (X.224 13.3 to 13.5, 13.12).
#[derive(Debug, Drop)]
pub enum TransportUnit {
    /// CR: the reference of the end that asks, the code of the size of a unit, and selectors.
    ConnectionRequest {
        /// The reference of the end that asks.
        source: u16,
        /// The code of the greatest size of a unit (X.224 13.3.4): 7 to 13 for 128 to 8,192 octets.
        size: Option<u8>,
        /// The calling selector.
        calling: Octets,
        /// The called selector.
        called: Octets,
    },
    /// CC: the reference of the end that asked, and the code of the size.
    ConnectionConfirm {
        /// The reference of the end that asked.
        destination: u16,
        /// The code of the greatest size of a unit (X.224 13.3.4): 7 to 13 for 128 to 8,192 octets.
        size: Option<u8>,
    },
    /// DR, with the reference of the end that it goes to.
    DisconnectRequest {
        /// The reference of the end that it goes to.
        destination: u16,
    },
    /// ER.
    TransportError,
}

/// The parameters of an ACCEPT (X.225 8.3.4).
#[derive(Clone, Copy, Debug, PartialEq, Eq)]
pub struct Accepting {
    /// Protocol options (19), a bit for each: 1 where extended concatenation is read. An end writes
    /// 0.
    pub options: Option<u8>,
    /// Version number (22), a bit for each: 1 version 1, 2 version 2. An end writes 2.
    pub version: Option<u8>,
    /// Initial serial number (23), 1 to 999,999.
    pub initial: Option<u32>,
    /// Session user requirements (20), a bit for each functional unit: 1 half-duplex, 2 duplex, 8
    /// minor synchronize, 32 resynchronize, 64 activities, 1,024 typed data.
    pub requirements: Option<u16>,
}

/// What an ABORT carries (X.225 8.3.9, X.226 8.2.4, 8.2.5).
#[derive(Debug, Drop)]
pub enum AbortData {
    /// It carries nothing.
    NoData,
    /// The reason of the provider of the presentation. A reason below 0 counts as 0.
    ProviderReason {
        /// Provider reason of the presentation (X.226 8.2.5).
        reason: Option<i64>,
    },
    /// Values of the user.
    UserValues(Values),
}

/// A word of the association (X.225 8.3.1, 8.3.4 to 8.3.10).
#[derive(Debug, Drop)]
pub enum AssociationWord {
    /// CN with CP.
    Connect {
        /// The parameters of the session.
        session: SessionConnect,
        /// The fields of the presentation.
        presentation: PresentationConnect,
        /// The values of the user data.
        values: Values,
    },
    /// AC with CPA.
    Accept {
        /// The parameters of the session.
        session: Accepting,
        /// The fields of the presentation.
        presentation: PresentationAccept,
        /// The values of the user data.
        values: Values,
    },
    /// RF with CPR: transport disconnect, and the code of the reason.
    Refuse {
        /// Transport disconnect (17): 1 releases the transport connection. An end writes 1.
        transport: Option<u8>,
        /// The code of the reason (50): 2 is the called user's rejection, with user data behind it.
        /// An end writes 2.
        reason: Option<u8>,
        /// The fields of the presentation, where there are any.
        presentation: Option<PresentationReject>,
        /// The values of the user data.
        values: Values,
    },
    /// FN: transport disconnect.
    Finish {
        /// Transport disconnect (17): 1 releases the transport connection. An end writes 1.
        transport: Option<u8>,
        /// The values of the user data.
        values: Values,
    },
    /// DN.
    Disconnect {
        /// The values of the user data.
        values: Values,
    },
    /// AB with ARU, ARP or nothing: transport disconnect.
    Abort {
        /// Transport disconnect (17): 1 release, 2 user abort, 4 protocol error, added up. An end
        /// writes 3 or 5.
        transport: Option<u8>,
        /// What it carries.
        user: AbortData,
    },
    /// AA.
    AbortAccept,
}

/// Values, and alterations in typed data (X.225 8.3.11, 8.3.13; X.226 8.2, 8.4.2).
#[derive(Debug, Drop)]
pub enum DataWord {
    /// DT.
    Values(Values),
    /// TD with AC.
    AlterContext {
        /// The contexts to add, in their order.
        add: Proposals,
        /// Identifiers of the contexts to delete.
        delete: Ids,
    },
    /// TD with ACA.
    AlterContextAck {
        /// The answers to the additions and to the deletions: one for each, where they fit.
        answers: Answers,
    },
}

/// Marks, restarts and tokens (X.225 8.3.16 to 8.3.25).
#[derive(Debug, Drop)]
pub enum MarkWord {
    /// MIP.
    Mark {
        /// Serial number (42), 1 to 999,999.
        number: u32,
    },
    /// MIA.
    MarkAck {
        /// Serial number (42), 1 to 999,999.
        number: u32,
    },
    /// RS.
    Restart {
        /// Serial number (42), 1 to 999,999.
        number: u32,
        /// The contexts that are restored, where they are told.
        list: Option<RestoredList>,
    },
    /// RA.
    RestartAck {
        /// Serial number (42), 1 to 999,999.
        number: u32,
        /// The contexts that are restored, where they are told.
        list: Option<RestoredList>,
    },
    /// GT.
    Give {
        /// Token item (16): 1 data, 4 minor, 16 major or activity, added up. An end writes 4.
        tokens: Option<u8>,
    },
    /// PT.
    Please {
        /// Token item (16): 1 data, 4 minor, 16 major or activity, added up. An end writes 4 or 21.
        tokens: Option<u8>,
        /// The values of the user data.
        values: Values,
    },
    /// GTC.
    GiveConfirm,
    /// GTA.
    GiveAck,
}

/// Activities (X.225 8.3.29 to 8.3.36).
#[derive(Debug, Drop)]
pub enum ActivityWord {
    /// AS.
    Start {
        /// Activity number (41), 1 to 999,999.
        activity: u32,
    },
    /// AR, with the number of the mark.
    Resume {
        /// Activity number (41), 1 to 999,999.
        activity: u32,
        /// The mark's number, 0 to 999,999.
        mark: u32,
    },
    /// AE.
    End {
        /// Serial number (42), 1 to 999,999.
        number: u32,
    },
    /// AEA.
    EndAck {
        /// Serial number (42), 1 to 999,999.
        number: u32,
    },
    /// AI.
    Interrupt {
        /// Reason (50): 0 no reason, which an end writes; others as X.225 numbers them.
        reason: Option<u8>,
    },
    /// AIA.
    InterruptAck,
    /// AD.
    Discard {
        /// Reason (50): 0 no reason, which an end writes; others as X.225 numbers them.
        reason: Option<u8>,
    },
    /// ADA.
    DiscardAck,
}

/// One unit of the session with what it carries.
#[derive(Debug, Drop)]
pub enum Word {
    /// A unit that opens, refuses or ends the association.
    OfAssociation(AssociationWord),
    /// Values, or an alteration of the set of contexts.
    OfData(DataWord),
    /// A unit of marks, restarts or tokens.
    OfMarks(MarkWord),
    /// A unit of activities.
    OfActivities(ActivityWord),
}

/// A message: a transport unit, or one unit of the session.
#[derive(Debug, Drop)]
pub enum Message {
    /// A transport unit.
    Transport(TransportUnit),
    /// One unit of the session.
    Session(Word),
}
