//! Whole runs with ample memory: what a command gives, from its words and files.

use osi_base::{
    FailingCalls, ListOf, MemFile, MemFiles, Name, Octets, Status, SureLine, SureSink, Words,
};
use osi_commands::osi_run;
use std::alloc::Global;
use std::process::Abort;

/// Words of these texts.
pub(crate) fn words(rt: &impl Abort, alloc: Global, texts: &[&str]) -> Words {
    let mut words = Words::new(alloc);
    for text in texts {
        let word = Name::from_str(alloc, text).expect(rt, "memory");
        words.push(word).expect(rt, "memory");
    }
    words
}

fn file(rt: &impl Abort, alloc: Global, name: &str, contents: &[u8]) -> MemFile {
    MemFile {
        name: Name::from_str(alloc, name).expect(rt, "memory"),
        contents: Octets::from_slice(alloc, contents).expect(rt, "memory"),
    }
}

/// Files of these names and contents. The calls of `read` with these numbers fail.
pub(crate) fn files(
    rt: &impl Abort,
    alloc: Global,
    texts: &[(&str, &[u8])],
    numbers: Vec<u64>,
) -> MemFiles {
    let mut files = ListOf::new(alloc);
    for (name, contents) in texts {
        let file = file(rt, alloc, name, contents);
        files.push(file).expect(rt, "memory");
    }
    MemFiles::new(alloc, files, FailingCalls::new(numbers))
}

/// The status and the output of a run with these words over files of these names and contents, of
/// which the calls of `read` with these numbers fail.
pub(crate) fn run_failing(
    rt: &impl Abort,
    alloc: Global,
    texts: &[(&str, &[u8])],
    said: &[&str],
    numbers: Vec<u64>,
) -> (Status, Octets) {
    let words = words(rt, alloc, said);
    let mut files = files(rt, alloc, texts, numbers);
    let mut out = SureSink::new(alloc);
    let mut line = SureLine::new(alloc);
    let status = osi_run(alloc, &words, &mut files, &mut out, &mut line);
    drop(line);
    drop(files);
    drop(words);
    (status, out.written)
}

/// The same, where no call fails.
pub(crate) fn run(
    rt: &impl Abort,
    alloc: Global,
    texts: &[(&str, &[u8])],
    said: &[&str],
) -> (Status, Octets) {
    run_failing(rt, alloc, texts, said, Vec::new(alloc))
}

/// Whether such a run ends with this status and this output.
pub(crate) fn gives(
    rt: &impl Abort,
    alloc: Global,
    texts: &[(&str, &[u8])],
    said: &[&str],
    status: Status,
    text: &[u8],
) -> bool {
    let (ended, written) = run(rt, alloc, texts, said);
    let is_so = ended == status && written.as_slice() == text;
    drop(written);
    is_so
}
