//! Reading and writing a sample over and over.

ghost use Rattle.std.specs.Prelude.{◌≤◌, length, IfOk};

use crate::codec_samples::Sample;
use crate::codec_syntaxes::Codec;
use crate::stopped::Stopped;
use std::alloc::Global;

/// Reads the sample's spelling so often, and answers how many octets were read.
pub fn read_rounds<C: Codec>(alloc: Global, sample: &Sample, rounds: u64) -> Result<u64, Stopped> {
    let mut octets = room::<C>(alloc, sample)?;
    write_over::<C>(sample, &mut octets, 1);
    if !sample.table.has(sample.of) {
        return Err(Stopped);
    }
    let mut read: u64 = 0;
    for _ in 0..rounds {
        let used = C::read(alloc, sample, &octets)?;
        read = read.saturating_add(used as u64);
    }
    Ok(read)
}

/// Writes the sample so often into one room, and answers how many octets were written.
pub fn write_rounds<C: Codec>(alloc: Global, sample: &Sample, rounds: u64) -> Result<u64, Stopped> {
    let mut room = room::<C>(alloc, sample)?;
    Ok(write_over::<C>(sample, &mut room, rounds))
}

/// A room for the sample's spelling.
fn room<C: Codec>(alloc: Global, sample: &Sample) -> Result<Vec<u8>, Stopped>
    ensures { IfOk result (λ room. length
        (C.spelling sample.now.table sample.now.of.0 sample.now.value) ≤ length room.items) }
{
    let len = C::len(sample);
    if len == u64::MAX {
        return Err(Stopped);
    }
    Ok(vec![in alloc; 0; len as usize]?)
}

fn write_over<C: Codec>(sample: &Sample, room: &mut [u8], rounds: u64) -> u64
    requires { length (C.spelling sample.now.table sample.now.of.0 sample.now.value) ≤ length
        room.old }
{
    let mut written: u64 = 0;
    for _ in 0..rounds {
        written = written.saturating_add(C::write(sample, room) as u64);
    }
    written
}
