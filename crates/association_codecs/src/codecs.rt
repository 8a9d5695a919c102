//! The fixed tables of all layers.

use acse::AcseTable;
use apdu_codec::Heads;
use osi_base::NoMemory;
use presentation_pdus::PpduTable;
use rtse_apdus::{RtseTable, TransferTable};
use std::alloc::Global;

/// The fixed tables by which the octets of an association are written and read.
#[derive(Drop)]
pub struct Codecs {
    /// Heads of APDUs of remote operations (X.882 9).
    pub heads: Heads,
    /// APDUs of association control (X.227 9).
    pub acse: AcseTable,
    /// APDUs of reliable transfer (X.228 9).
    pub rtse: RtseTable,
    /// Transfers (X.228 7.3).
    pub transfers: TransferTable,
    /// Units of the presentation protocol (X.226 8).
    pub ppdus: PpduTable,
}

impl Codecs {
    /// The tables, which only want of memory can refuse.
    pub fn new(alloc: Global) -> Result<Codecs, NoMemory> {
        Ok(Codecs {
            heads: Heads::new(alloc)?,
            acse: AcseTable::new(alloc)?,
            rtse: RtseTable::new(alloc)?,
            transfers: TransferTable::new(alloc)?,
            ppdus: PpduTable::new(alloc)?,
        })
    }
}
