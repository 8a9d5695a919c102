//! Presentation data values, as they are meant (X.226 8.4.2, X.227 9, X.228 9, X.880 9).

ghost use Rattle.std.specs.Prelude.{◌≡◌};
ghost use Rattle.end_rules.specs.Hearing.{syntax_of};

use osi_base::{Acse, ListOf, Octets, Pair, Rtse, Syntax};
use stub_tables::Apdu;

/// An item of the user information of an APDU of association control (X.227 9, X.228 9).
#[derive(Debug, Drop)]
pub enum Information {
    /// An APDU of reliable transfer on the context with this identifier.
    Transferring {
        /// Presentation context identifier, 1 to 32,767.
        id: u32,
        /// The APDU.
        apdu: Rtse,
    },
    /// Octets on the context with this identifier, which aren't read.
    Other {
        /// Presentation context identifier, 1 to 32,767.
        id: u32,
        /// The octets: one whole BER value of any type.
        octets: Octets,
    },
}

/// User information in its order.
pub type UserInformation = ListOf<Information>;

/// What a presentation data value is.
#[derive(Debug, Drop)]
pub enum ValueContent {
    /// An APDU of remote operations (X.882).
    Remote {
        /// The APDU.
        apdu: Apdu,
        /// The place, from 0, in the module's table of operations, or of errors for an error, where
        /// its code was found as it was read, if it was. What hears the APDU compares the codes
        /// before it takes that place.
        place: Option<u32>,
    },
    /// Octets of the module's abstract syntax that spell no APDU.
    Unread(Octets),
    /// An APDU of association control, whose own user information is left empty, and its user
    /// information.
    Association {
        /// The APDU, without its user information.
        apdu: Acse,
        /// Its user information.
        user: UserInformation,
    },
    /// A plea for the turn, with its priority.
    Plea {
        /// The priority of the plea, as a number.
        priority: u32,
    },
    /// A part of a transfer.
    Part(Octets),
}

/// A presentation data value (X.226 8.4.2).
#[derive(Debug, Drop)]
pub struct Value {
    /// Presentation context identifier, 1 to 32,767.
    pub id: u32,
    /// The pair that the identifier stands for; `None` on a context that isn't there.
    pub pair: Option<Pair>,
    /// What its octets are: an APDU of one of the layers, or they themselves.
    pub content: ValueContent,
}

/// Presentation data values in their order.
pub type Values = ListOf<Value>;

/// An APDU on a context, with the pair under which it is written or was read.
#[derive(Debug, Drop)]
pub struct TransferItem {
    /// Presentation context identifier, 1 to 32,767.
    pub id: u32,
    /// The pair of abstract and transfer syntax under which the APDU is written or was read.
    pub pair: Pair,
    /// The APDU of remote operations.
    pub apdu: Apdu,
}

/// What a transfer holds.
#[derive(Debug, Drop)]
pub enum Arrived {
    /// An APDU of remote operations.
    Whole {
        /// The APDU with its context, and the pair under which it was read.
        item: TransferItem,
        /// The place where its code was found, as in `ValueContent::Remote`.
        place: Option<u32>,
    },
    /// Octets on a context of the module that spell none.
    Raw {
        /// Presentation context identifier, 1 to 32,767.
        id: u32,
        /// The pair that the identifier stands for.
        pair: Pair,
        /// The octets.
        octets: Octets,
    },
}

/// The syntax of a pair, which is BER where there is none.
pub fn syntax_of(pair: &Option<Pair>) -> Syntax
    ensures { result ≡ syntax_of pair.now }
{
    match pair {
        None => Syntax::Ber,
        Some(pair) => pair.transfer,
    }
}
