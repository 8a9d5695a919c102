//! Reads the packets of a stream, in whatever pieces it comes.

ghost use Rattle.std.specs.Prelude.{◌≡◌, ℕ, ◌++◌, List, [], Some, None, IfSome, IfOk, OnErr};
ghost use Rattle.osi_base.specs.Octets.{AreOctets};
ghost use Rattle.tpkt.specs.declared.packet.Packet.{Packet};
ghost use Rattle.tpkt.specs.declared.packet.TFault.{TFault};
ghost use Rattle.tpkt.specs.declared.reader_state.ReaderState.{ReaderState};
ghost use Rattle.tpkt.specs.Reader.{nothing, IsFed, IsKept};
ghost use Rattle.tpkt.specs.Stream.{ReadsAsPackets, HasRead};

use crate::packet::{Packets, TFed};
use crate::reader_state::{ReaderState, all_taken, between};
use osi_base::{NoMemory, Octets};
use std::alloc::Global;
use std::marker::Model;

/// Reads the packets of one connection's stream (RFC 1006 6; X.224 13, class 0). It keeps at most
/// one packet, of 65,535 octets, and one TSDU, of 1,048,576; a longer TSDU is a fault.
///
/// A contract sees what the reader holds, or `None` where a feed once wanted memory and got none:
/// such a reader keeps nothing, and answers each later feed with `NoMemory`.
#[derive(Drop)]
pub struct TReader {
    alloc: Global,
    held: Option<ReaderState>,
}

impl Model for TReader {
    ghost use Rattle.std.specs.Prelude.{Option, IfSome};
    ghost use Rattle.tpkt.specs.declared.reader_state.ReaderState.{ReaderState};

    ghost Value = { Option ReaderState };

    ghost view = { λ r. r.held };

    ghost use Rattle.tpkt.specs.Reader.{IsSoundReader};

    ghost invariant = { λ r. IfSome r.held IsSoundReader };
}

impl TReader {
    /// A reader at the first octet of a connection.
    pub fn new(alloc: Global) -> TReader
        ensures held { result ≡ Some nothing }
        // Nothing came yet, and nothing was handed up.
        ensures new { HasRead [] [] result }
    {
        TReader {
            alloc,
            held: Some(between(alloc, Octets::new(alloc), 0)),
        }
    }

    /// Takes the next octets of the stream, and gives each packet that ends in them, in the feed
    /// of its last octet, and the fault of the stream if there is one by now. After a fault each
    /// feed answers it again and no packet. Where memory runs out, the reader keeps nothing, and
    /// this and each later feed answers `NoMemory`.
    pub fn feed(&mut self, bytes: &[u8]) -> Result<TFed, NoMemory>
        // All feeds together give the packets of the stream and its first fault.
        ensures all { (came : List ℕ) (given : List Packet) → AreOctets came
            → HasRead came given self.old
            → IfOk result (λ fed.
            ReadsAsPackets (came ++ bytes.now) (given ++ fed.packets) fed.fault) }
        ensures goes_on { (came : List ℕ) (given : List Packet) → HasRead came given self.old
            → IfOk result (λ fed. HasRead (came ++ bytes.now) (given ++ fed.packets) self.new) }
        // After a fault nothing changes.
        ensures again { (held : ReaderState) (fault : TFault) → self.old ≡ Some held
            → held.fault ≡ Some fault → IfOk result (λ fed. (fed.packets ≡ [])
            × (fed.fault ≡ Some fault) × (self.new ≡ self.old)) }
        // What one feed makes of what was held.
        ensures ok { IfOk result (λ fed. IsFed self.old bytes.now fed self.new) }
        ensures err { OnErr result (self.new ≡ None) }
        // At most one packet and one TSDU are kept.
        ensures kept { IfSome self.new IsKept }
    {
        let Some(held) = self.held.take() else {
            return Err(NoMemory);
        };
        let mut packets = Packets::new(self.alloc);
        let held = all_taken(self.alloc, held, bytes, &mut packets)?;
        let fault = held.fault;
        self.held = Some(held);
        Ok(TFed { packets, fault })
    }
}
