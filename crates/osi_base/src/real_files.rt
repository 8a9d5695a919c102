//! The file system and the standard output, as files and a sink.

ghost use Rattle.std.specs.Prelude.{◌≡◌, ◌<◌, ◌≤◌, None, IfOk, IfSome, IsErrOf, length, take};
ghost use Rattle.osi_base.specs.Limits.{file_most};
ghost use Rattle.osi_base.specs.Outside.{FaultsRose};

use crate::files::{FILE_MOST, FileFault, Files};
use crate::name::Name;
use crate::octets::Octets;
use crate::sink::{Sink, SinkFault};
use std::alloc::Global;
use std::fs::File;
use std::io::{ErrorKind, Read};
use std::rt;

/// The files of the file system. Neither their contents nor the names that were asked for are
/// told.
#[derive(Drop)]
pub struct DiskFiles<R> {
    /// The runtime that the program was given.
    pub rt: R,
    /// How often reading failed.
    pub faults: u64,
}

/// The standard output. What was written isn't told.
#[derive(Drop)]
pub struct StdSink<R> {
    /// The runtime that the program was given.
    pub rt: R,
    /// How often writing failed.
    pub faults: u64,
}

/// Reads a file to its end, or as many of its octets as are handed up.
fn read_whole<T: Read>(alloc: Global, file: &mut T) -> Result<Octets, FileFault>
    ensures whole { IfOk result (λ octets. IfSome (T.remaining file.old)
        (λ contents. octets ≡ take file_most contents)) }
    ensures bounded { IfOk result (λ octets. length octets ≤ file_most) }
    ensures found { ¬ (IsErrOf result FileFault.Missing) }
{
    let mut contents = Octets::new(alloc);
    let mut block = [0; 4096];
    for _ in 0..u64::MAX {
        let room = block.len().min(FILE_MOST - contents.len());
        match file.read(&mut block[..room]) {
            Ok(0) => return Ok(contents),
            Ok(count) => contents.extend(&block[..count])?,
            Err(error) if error.kind() == ErrorKind::Interrupted => {}
            Err(_) => return Err(FileFault::Failed),
        }
    }
    Err(FileFault::Failed)
}

impl<R: rt::Files> Files for DiskFiles<R> {
    ghost faults = { λ it. it.faults };

    ghost told = { λ _. None };

    ghost asked = { λ _. None };

    fn read(&mut self, alloc: Global, name: &Name) -> Result<Octets, FileFault> {
        let contents = match File::open(&self.rt, name.as_str()) {
            Ok(mut file) => read_whole(alloc, &mut file),
            Err(_) => Err(FileFault::Failed),
        };
        if let Err(FileFault::Failed) = contents {
            self.faults = self.faults.saturating_add(1);
        }
        contents
    }
}

/// Writes a piece, of which one octet or more is taken where it isn't empty.
fn write_some<R: Print>(rt: &R, bytes: &[u8]) -> Option<usize>
    ensures within { IfSome result (λ taken. taken ≤ length bytes.now) }
    ensures some { IfSome result (λ taken. 0 < length bytes.now → 0 < taken) }
{
    for _ in 0..u64::MAX {
        match rt.write_some(bytes) {
            Ok(0) if !bytes.is_empty() => return None,
            Ok(taken) => return Some(taken),
            Err(error) if error.kind() == ErrorKind::Interrupted => {}
            Err(_) => return None,
        }
    }
    None
}

impl<R: Print> Sink for StdSink<R> {
    ghost faults = { λ it. it.faults };

    ghost told = { λ _. None };

    fn write(&mut self, bytes: &[u8]) -> Result<usize, SinkFault> {
        match write_some(&self.rt, bytes) {
            Some(taken) => Ok(taken),
            None => {
                self.faults = self.faults.saturating_add(1);
                Err(SinkFault::Failed)
            }
        }
    }
}
