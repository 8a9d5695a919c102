//! Transport units (X.224 13).

ghost use Rattle.std.specs.Prelude.{◌≡◌, [], IfOk};
ghost use Rattle.tpkt.specs.Written.{control_packet, connection_fields, HasRoom};
ghost use Rattle.association_words.specs.Seen.{seen_transport};
ghost use Rattle.association_wire.specs.Written.{request_ends, confirm_ends, written_unit};
ghost use Rattle.association_writing.specs.Room.{HasRoomFor};

use association_words::TransportUnit;
use osi_base::{Copied, NoMemory, Octets};
use std::alloc::Global;
use tpkt::{ConnectionFields, write_confirm, write_connect, write_disconnect};

/// CR.
fn request(
    alloc: Global,
    source: u16,
    size: Option<u8>,
    calling: &Octets,
    called: &Octets,
) -> Result<Octets, NoMemory>
    requires { HasRoom (request_ends source size calling.now called.now) }
    ensures { IfOk result (λ octets. octets
        ≡ control_packet (connection_fields 224
        (request_ends source size calling.now called.now))) }
{
    let ends = ConnectionFields {
        destination: 0,
        source,
        size,
        calling: calling.copy(alloc)?,
        called: called.copy(alloc)?,
    };
    write_connect(alloc, &ends)
}

/// CC, of a responder, whose reference is 2.
fn confirm(alloc: Global, destination: u16, size: Option<u8>) -> Result<Octets, NoMemory>
    ensures { IfOk result (λ octets. octets
        ≡ control_packet (connection_fields 208 (confirm_ends destination size))) }
{
    let ends = ConnectionFields {
        destination,
        source: 2,
        size,
        calling: Octets::new(alloc),
        called: Octets::new(alloc),
    };
    write_confirm(alloc, &ends)
}

/// The octets of a transport unit. ER is never written.
pub(crate) fn written_unit(alloc: Global, unit: &TransportUnit) -> Result<Octets, NoMemory>
    requires { HasRoomFor (seen_transport unit.now) }
    ensures { IfOk result (λ octets. octets ≡ written_unit (seen_transport unit.now)) }
{
    match unit {
        TransportUnit::ConnectionRequest {
            source,
            size,
            calling,
            called,
        } => request(alloc, *source, *size, calling, called),
        TransportUnit::ConnectionConfirm { destination, size } => {
            confirm(alloc, *destination, *size)
        }
        TransportUnit::DisconnectRequest { destination } => {
            write_disconnect(alloc, *destination, 0, 0)
        }
        TransportUnit::TransportError => Ok(Octets::new(alloc)),
    }
}
