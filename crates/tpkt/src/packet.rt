//! What a stream of packets carries.

ghost use Rattle.std.specs.Prelude.{◌≡◌, ◌≤◌, ◌+◌, ◌↔◌, ℕ, length, IsTrue};
ghost use Rattle.std.specs.List.{flat_map};
ghost use Rattle.osi_base.specs.Limits.{most_header_fields};
ghost use Rattle.tpkt.specs.Wire.{parameter};
ghost use Rattle.tpkt.specs.Written.{size_parameter, selector_parameter, connection_fields, HasRoom};

use osi_base::{FaultAt, Kind, ListOf, Octets};
use std::error::Error;
use std::fmt;

/// The fields of a connection request or confirm (X.224 13.3, 13.4).
#[derive(Debug, Drop)]
pub struct ConnectionFields {
    /// The reference of the end that the unit goes to; 0 in a request.
    pub destination: u16,
    /// The reference of the end that sends the unit.
    pub source: u16,
    /// The code of the proposed or agreed size of a unit, where there is one: the size is 2 to the
    /// power of this code, in octets (X.224 13.3.4).
    pub size: Option<u8>,
    /// The selector of the calling end; empty where there is none.
    pub calling: Octets,
    /// The selector of the called end; empty where there is none.
    pub called: Octets,
}

/// What is handed up from a stream.
#[derive(Debug, Drop)]
pub enum Packet {
    /// A connection request, CR.
    Connect(ConnectionFields),
    /// A connection confirm, CC.
    Confirm(ConnectionFields),
    /// A disconnect request, DR.
    Disconnect,
    /// A unit that tells an error, ER.
    Problem,
    /// A whole transport service data unit, the data of one or more DTs.
    Tsdu(Octets),
}

/// Packets in the order in which they ended.
pub type Packets = ListOf<Packet>;

/// Where a stream first leaves the grammar.
#[derive(Clone, Copy, Debug, PartialEq, Eq)]
pub struct TFault {
    /// The offset of the field from the first octet of the connection; it stands still at the
    /// last value of its type.
    pub place: u64,
    /// How the field breaks the grammar.
    pub kind: Kind,
}

impl fmt::Display for TFault {
    ghost use Rattle.std.specs.Prelude.{Some};
    ghost use Rattle.osi_base.specs.Printed.{kind_word, fault_at_text};

    ghost output = { λ fault. Some (fault_at_text (kind_word fault.kind) fault.place) };

    fn fmt<W: fmt::Write>(&self, f: &mut fmt::Formatter<W>) -> fmt::Result {
        let cause = self.kind.word();
        let place = self.place;
        fmt::Display::fmt(&FaultAt { cause, place }, f)
    }
}

impl Error for TFault {}

/// What a feed gave: the packets that ended in it, and the fault if the stream has one by now.
#[derive(Debug, Drop)]
pub struct TFed {
    /// The packets that ended in it, in their order.
    pub packets: Packets,
    /// The fault, after which nothing more is read.
    pub fault: Option<TFault>,
}

fn selector_len(selector: &Octets) -> usize
    requires { length selector.now ≤ most_header_fields }
    ensures len { (code : ℕ)
        → result ≡ length (flat_map parameter (selector_parameter code selector.now)) }
    ensures bound { result ≤ 256 }
{
    if selector.len() == 0 {
        return 0;
    }
    selector.len() + 2
}

fn size_len(size: Option<u8>) -> usize
    ensures len { result ≡ length (flat_map parameter (size_parameter size)) }
    ensures bound { result ≤ 3 }
{
    match size {
        None => 0,
        Some(_) => 3,
    }
}

fn fields_len(ends: &ConnectionFields) -> usize
    requires calling { length ends.now.calling ≤ most_header_fields }
    requires called { length ends.now.called ≤ most_header_fields }
    ensures { result ≡ length (connection_fields 0 ends.now) }
{
    6 + size_len(ends.size) + selector_len(&ends.calling) + selector_len(&ends.called)
}

impl ConnectionFields {
    /// Whether a header has room for these fields: it has at most 254 octets.
    pub fn has_room(&self) -> bool
        ensures { IsTrue result ↔ HasRoom self.now }
    {
        if self.calling.len() > 254 || self.called.len() > 254 {
            return false;
        }
        fields_len(self) <= 254
    }
}
