//! What is agreed for transfers, and which association is named (X.228 8.1).

ghost use Rattle.std.specs.Prelude.{◌≡◌, IfOk};
ghost use Rattle.std.specs.Option.{option_copied};
ghost use Rattle.end_rules.specs.Connecting.{same_octets, has_association, rejection_of, agreed_checkpoint, agreed_with, data_named, answering_data};
ghost use Rattle.association_connecting.specs.Agreed.{seen_agreed, names_recovery};
ghost use Rattle.association_answers.specs.association_state.Seen.{base_in, seen};

use association_answers::association_sends_layer::connection_data;
use association_answers::association_state_layer::{Basis, Body};
use association_ground::is_broken;
use osi_base::{ConnectionData, Copied, NoMemory, Octets, Rtse};

/// Agreed for transfers: the checkpoint, and the window.
#[derive(Clone, Copy, Debug, PartialEq, Eq)]
pub(crate) struct Agreed {
    pub checkpoint: u32,
    pub window: u32,
}

/// Whether the own octets are there, and these.
fn same_octets(own: &Option<Octets>, octets: &Octets) -> bool
    ensures { result ≡ same_octets own.now octets.now }
{
    match own {
        None => false,
        Some(own) => own.as_slice() == octets.as_slice(),
    }
}

/// Whether the end has the association that these references name.
fn has_association(body: &Body, connection: &ConnectionData) -> bool
    ensures { result ≡ has_association (seen body.now) connection.now }
{
    match connection {
        ConnectionData::Open(_) => true,
        ConnectionData::Recover { reference, common } => {
            is_broken(body.link.phase)
                && same_octets(&body.link.reference, reference)
                && same_octets(&body.link.common, common)
        }
    }
}

/// The reason of an RTORJ: dialogue mode (3), window (2), unknown association (1); tried in this
/// order.
pub(crate) fn rejection_of(body: &Body, apdu: Option<&Rtse>) -> Option<u8>
    ensures { result ≡ rejection_of (seen body.now) (option_copied apdu.entry) }
{
    match apdu {
        Some(
            Rtse::OpenRequest {
                window,
                mode,
                data: connection,
                ..
            },
        ) => {
            if *mode != 1 {
                return Some(3);
            }
            if *window == 0 {
                return Some(2);
            }
            if !has_association(body, connection) {
                return Some(1);
            }
            None
        }
        _ => None,
    }
}

/// Agreed: no checkpoints where one end says 0, else the smaller.
fn agreed_checkpoint(own: u32, theirs: u32) -> u32
    ensures { result ≡ agreed_checkpoint own theirs }
{
    if own == 0 || theirs == 0 {
        0
    } else {
        own.min(theirs)
    }
}

/// What is agreed with what came.
pub(crate) fn agreed_with(basis: &Basis<'_>, apdu: Option<&Rtse>) -> Agreed
    ensures { seen_agreed result ≡ agreed_with (base_in basis.now) (option_copied apdu.entry) }
{
    match apdu {
        Some(
            Rtse::OpenRequest {
                checkpoint,
                window,
                ..
            },
        ) => Agreed {
            checkpoint: agreed_checkpoint(basis.config.checkpoint, *checkpoint),
            window: basis.config.window.min(*window),
        },
        Some(
            Rtse::OpenAccept {
                checkpoint,
                window,
                ..
            },
        ) => Agreed {
            checkpoint: *checkpoint,
            window: *window,
        },
        _ => Agreed {
            checkpoint: 0,
            window: 1,
        },
    }
}

/// Whether what came names an association to be recovered.
pub(crate) fn names_recovery(apdu: Option<&Rtse>) -> bool
    ensures { result ≡ names_recovery (option_copied apdu.entry) }
{
    match apdu {
        Some(
            Rtse::OpenRequest {
                data: ConnectionData::Recover { .. },
                ..
            },
        ) => true,
        _ => false,
    }
}

/// The connection data of the answer to what came: of the form that came.
pub(crate) fn data_for(basis: &Basis<'_>, apdu: Option<&Rtse>) -> Result<ConnectionData, NoMemory>
    ensures { IfOk result (λ d. d ≡ answering_data (base_in basis.now) (data_named (base_in
        basis.now) (option_copied apdu.entry))) }
{
    match apdu {
        Some(
            Rtse::OpenRequest {
                data: ConnectionData::Recover { reference, common },
                ..
            },
        ) => Ok(ConnectionData::Recover {
            reference: reference.copy(basis.alloc)?,
            common: common.copy(basis.alloc)?,
        }),
        _ => connection_data(basis, false),
    }
}
