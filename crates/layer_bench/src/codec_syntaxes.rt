//! The syntaxes that the values are spelled in.

ghost use Rattle.std.specs.Prelude.{◌≡◌, ℕ, ◌≤◌, ◌<◌, List, length, min};
ghost use Rattle.osi_base.specs.Limits.{last_count};
ghost use Rattle.asn1_types.specs.declared.row.TypeRow.{TypeRow};
ghost use Rattle.asn1_types.specs.Value.{Value};
ghost use Rattle.ber_codec.specs.Writing.{written};
ghost use Rattle.packed_codec.specs.Writing.{packed};

use crate::codec_samples::Sample;
use crate::stopped::Stopped;
use ber_codec::{ber_len, ber_read, ber_write};
use packed_codec::{packed_len, packed_read, packed_write};
use std::alloc::Global;

/// What spells values in a syntax and reads them.
pub trait Codec {
    ghost spelling: { List TypeRow → ℕ → Value → List ℕ };

    /// How many octets the spelling has, or the last number of 64 bits where there are more.
    fn len(sample: &Sample) -> u64
        ensures { result ≡
            min (length (spelling sample.now.table sample.now.of.0 sample.now.value)) last_count };

    /// Writes the spelling at the front of the room, and answers how many octets it has.
    fn write(sample: &Sample, room: &mut [u8]) -> usize
        requires { length (spelling sample.now.table sample.now.of.0 sample.now.value) ≤ length
            room.old }
        ensures { result ≡ length (spelling sample.now.table sample.now.of.0 sample.now.value) };

    /// Reads the value of the sample's type that the octets begin with, and answers how many octets
    /// spelled it.
    fn read(alloc: Global, sample: &Sample, octets: &[u8]) -> Result<usize, Stopped>
        requires { sample.now.of.0 < length sample.now.table };
}

/// BER, written in DER.
pub struct Ber;

impl Codec for Ber {
    ghost spelling = { written };

    fn len(sample: &Sample) -> u64 {
        ber_len(&sample.table, sample.of, &sample.value)
    }

    fn write(sample: &Sample, room: &mut [u8]) -> usize {
        ber_write(&sample.table, sample.of, &sample.value, room)
    }

    fn read(alloc: Global, sample: &Sample, octets: &[u8]) -> Result<usize, Stopped> {
        Ok(ber_read(alloc, &sample.table, sample.of, octets)?.used)
    }
}

/// The packed syntax.
pub struct Packed;

impl Codec for Packed {
    ghost spelling = { packed };

    fn len(sample: &Sample) -> u64 {
        packed_len(&sample.table, sample.of, &sample.value)
    }

    fn write(sample: &Sample, room: &mut [u8]) -> usize {
        packed_write(&sample.table, sample.of, &sample.value, room)
    }

    fn read(alloc: Global, sample: &Sample, octets: &[u8]) -> Result<usize, Stopped> {
        Ok(packed_read(alloc, &sample.table, sample.of, octets)?.used)
    }
}
