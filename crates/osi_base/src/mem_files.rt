//! Files and sinks that are held in memory.

ghost use Rattle.std.specs.Prelude.{[], ◌∷◌, ◌++◌, ◌<◌, ◌≡◌, ◌≤◌, Some, None, IfOk, IfSome, OnOk, OnErr, IsErrOf, min, length, reverse, take, find};
ghost use Rattle.std.specs.Option.{option_copied};
ghost use Rattle.std.specs.Str.{bytes_eq};
ghost use Rattle.osi_base.specs.Failing.{CallPasses, CallFails};
ghost use Rattle.osi_base.specs.Limits.{file_most};
ghost use Rattle.osi_base.specs.Memory.{contents_in};

use crate::copied::Copied;
use crate::failing_calls::FailingCalls;
use crate::files::{FILE_MOST, FileFault, Files};
use crate::line::Outcome;
use crate::list::ListOf;
use crate::name::Name;
use crate::octets::Octets;
use crate::sink::{Sink, SinkFault};
use std::alloc::Global;

/// A file in memory.
#[derive(Debug, Drop)]
pub struct MemFile {
    /// The file's name.
    pub name: Name,
    /// All its octets.
    pub contents: Octets,
}

/// Files in memory, of which some calls fail. They tell the names that they were asked for.
#[derive(Debug, Drop)]
pub struct MemFiles {
    /// The files that there are.
    pub files: ListOf<MemFile>,
    /// Which calls are to fail.
    pub failing: FailingCalls,
    /// The names, the oldest first.
    pub asked: Vec<Name>,
}

/// Files in memory, which are always read. They tell the names that they were asked for.
#[derive(Debug, Drop)]
pub struct SureFiles {
    /// The files that there are.
    pub files: ListOf<MemFile>,
    /// The names, the oldest first.
    pub asked: Vec<Name>,
}

impl MemFiles {
    /// These files, of which none was asked for. The calls of `read` with these numbers, counted
    /// from 0, fail.
    pub fn new(alloc: Global, files: ListOf<MemFile>, failing: FailingCalls) -> MemFiles
        ensures files { result.files ≡ files }
        ensures failing { result.failing ≡ failing }
        ensures asked { result.asked.items ≡ [] }
    {
        MemFiles {
            files,
            failing,
            asked: Vec::new(alloc),
        }
    }
}

impl SureFiles {
    /// These files, of which none was asked for.
    pub fn new(alloc: Global, files: ListOf<MemFile>) -> SureFiles
        ensures files { result.files ≡ files }
        ensures asked { result.asked.items ≡ [] }
    {
        SureFiles {
            files,
            asked: Vec::new(alloc),
        }
    }
}

/// The first file of this name.
fn find_file<'a>(files: &'a [MemFile], name: &Name) -> Option<&'a MemFile>
    ensures { option_copied result ≡ find (λ file. bytes_eq file.name name.now) files.entry.now }
{
    files
        .iter()
        .find(|file| file.name.as_bytes() == name.as_bytes())
}

/// As many octets as are handed up.
#[tactic(auto, using(std::proofs::lemmas::List::take_min))]
fn cut(contents: &[u8]) -> &[u8]
    ensures { result.now ≡ take file_most contents.now }
{
    &contents[..FILE_MOST.min(contents.len())]
}

/// What is handed up of the first file of this name.
#[tactic(auto, using(crate::proofs::Contents::contents_in_bounded))]
fn read_in(files: &[MemFile], alloc: Global, name: &Name) -> Result<Octets, FileFault>
    ensures contents { IfOk result (λ octets. contents_in files.now name.now ≡ Some octets) }
    ensures bounded { IfSome (contents_in files.now name.now)
        (λ octets. length octets ≤ file_most) }
    ensures missing { IsErrOf result FileFault.Missing → contents_in files.now name.now ≡ None }
    ensures never_failed { ¬ (IsErrOf result FileFault.Failed) }
{
    match find_file(files, name) {
        None => Err(FileFault::Missing),
        Some(file) => Ok(Octets::from_slice(alloc, cut(file.contents.as_slice()))?),
    }
}

#[tactic(auto, using(crate::proofs::Contents::contents_in_bounded))]
impl Files for MemFiles {
    ghost faults = { λ it. it.failing.faults };

    ghost told = { λ it. Some (contents_in it.files) };

    ghost asked = { λ it. Some (reverse it.asked.items) };

    fn read(&mut self, alloc: Global, name: &Name) -> Result<Octets, FileFault>
        ensures count { self.old.failing.faults ≤ self.new.failing.faults }
        ensures files { self.new.files ≡ self.old.files }
        ensures asked { OnOk result (self.new.asked.items ≡ self.old.asked.items ++ name.now ∷ []) }
        ensures contents { IfOk result (λ octets. contents_in self.old.files name.now
            ≡ Some octets) }
        ensures bounded { IfOk result (λ octets. length octets ≤ file_most) }
        ensures told_bounded { IfSome (contents_in self.old.files name.now)
            (λ octets. length octets ≤ file_most) }

        // It fails exactly where it is to
        ensures ok { OnOk result (CallPasses self.old.failing self.new.failing) }
        ensures failed { IsErrOf result FileFault.Failed
            → CallFails self.old.failing self.new.failing }
        ensures failed_asked { IsErrOf result FileFault.Failed → self.new.asked.items
            ≡ self.old.asked.items ++ name.now ∷ [] }

        // There is no such file
        ensures missing { IsErrOf result FileFault.Missing → contents_in self.old.files name.now
            ≡ None }
        ensures missing_passes { IsErrOf result FileFault.Missing →
            CallPasses self.old.failing self.new.failing }
        ensures missing_asked { IsErrOf result FileFault.Missing → self.new.asked.items
            ≡ self.old.asked.items ++ name.now ∷ [] }

        // An allocation was refused
        ensures no_memory { IsErrOf result FileFault.NoMemory →
            self.new.failing ≡ self.old.failing }
        ensures no_memory_asked { IsErrOf result FileFault.NoMemory → self.new.asked.items
            ≡ self.old.asked.items }
    {
        let title = name.copy(alloc)?;
        self.asked.reserve(1)?;
        let contents = match self.failing.next_outcome() {
            Outcome::Failed => Err(FileFault::Failed),
            Outcome::Done => read_in(self.files.as_slice(), alloc, name),
        };
        if let Err(FileFault::NoMemory) = contents {
            return Err(FileFault::NoMemory);
        }
        self.asked.push(title)?;
        self.failing.is_next();
        contents
    }
}

#[tactic(auto, using(crate::proofs::Contents::contents_in_bounded))]
impl Files for SureFiles {
    ghost faults = { λ _. 0 };

    ghost told = { λ it. Some (contents_in it.files) };

    ghost asked = { λ it. Some (reverse it.asked.items) };

    fn read(&mut self, alloc: Global, name: &Name) -> Result<Octets, FileFault> {
        let title = name.copy(alloc)?;
        self.asked.reserve(1)?;
        let contents = read_in(self.files.as_slice(), alloc, name);
        if let Err(FileFault::NoMemory) = contents {
            return Err(FileFault::NoMemory);
        }
        self.asked.push(title)?;
        contents
    }
}

/// A sink in memory, of which some calls fail. A call takes `most` octets at most.
#[derive(Debug, Drop)]
pub struct MemSink {
    /// The octets that were written so far.
    pub written: Octets,
    /// How many octets a call writes at most.
    pub most: usize,
    /// Which calls are to fail.
    pub failing: FailingCalls,
    ghost takes_some: { 0 < most },
}

/// A sink in memory, which always takes what it is given.
#[derive(Debug, Drop)]
pub struct SureSink {
    /// The octets that were written so far.
    pub written: Octets,
}

impl MemSink {
    /// A sink to which nothing was written. The calls with these numbers, counted from 0, fail,
    /// and the others take `most` octets at most.
    pub fn new(alloc: Global, most: usize, failing: FailingCalls) -> MemSink
        requires { 0 < most }
        ensures empty { result.written ≡ [] }
        ensures most { result.most ≡ most }
        ensures failing { result.failing ≡ failing }
    {
        MemSink {
            written: Octets::new(alloc),
            most,
            failing,
        }
    }
}

impl SureSink {
    /// A sink to which nothing was written.
    pub fn new(alloc: Global) -> SureSink
        ensures { result.written ≡ [] }
    {
        SureSink {
            written: Octets::new(alloc),
        }
    }
}

impl Sink for MemSink {
    ghost faults = { λ it. it.failing.faults };

    ghost told = { λ it. Some it.written };

    fn write(&mut self, bytes: &[u8]) -> Result<usize, SinkFault>
        ensures count { self.old.failing.faults ≤ self.new.failing.faults }
        ensures ok { IfOk result (λ taken. self.new.written ≡ self.old.written
            ++ take taken bytes.now) }
        ensures taken { IfOk result (λ taken. taken ≡ min self.old.most (length bytes.now)) }
        ensures most { self.new.most ≡ self.old.most }
        ensures err { OnErr result (self.new.written ≡ self.old.written) }

        // It fails exactly where it is to
        ensures passes { OnOk result (CallPasses self.old.failing self.new.failing) }
        ensures failed { IsErrOf result SinkFault.Failed
            → CallFails self.old.failing self.new.failing }
        ensures no_memory { IsErrOf result SinkFault.NoMemory →
            self.new.failing ≡ self.old.failing }
    {
        let outcome = self.failing.next_outcome();
        let taken = match outcome {
            Outcome::Failed => 0,
            Outcome::Done => self.most.min(bytes.len()),
        };
        self.written.extend(&bytes[..taken])?;
        self.failing.is_next();
        match outcome {
            Outcome::Failed => Err(SinkFault::Failed),
            Outcome::Done => Ok(taken),
        }
    }
}

impl Sink for SureSink {
    ghost faults = { λ _. 0 };

    ghost told = { λ it. Some it.written };

    fn write(&mut self, bytes: &[u8]) -> Result<usize, SinkFault>
        ensures whole { IfOk result (λ taken. taken ≡ length bytes.now) }
        ensures ok { IfOk result (λ taken. self.new.written ≡ self.old.written
            ++ take taken bytes.now) }
        ensures err { OnErr result (self.new.written ≡ self.old.written) }
        ensures never { ¬ (IsErrOf result SinkFault.Failed) }
    {
        self.written.extend(bytes)?;
        Ok(bytes.len())
    }
}
