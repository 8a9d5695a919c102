//! What no clause says: that calls with ample memory are done, and what the real outside gives.

use crate::calls::failing;
use osi_base::{
    DiskFiles, FileFault, Files, ListOf, MemFile, MemFiles, MemSink, Name, Octets, Sink, SinkFault,
    StdSink, SureFiles, SureSink, write_all,
};
use std::alloc::Global;
use std::io::{Error, ErrorKind};
use std::process::Abort;
use std::test::*;
use std::{fs, io};

/// A standard output that takes one octet a call, and then none, and then fails.
#[derive(Drop)]
struct Stubborn {
    left: std::cell::Cell<u32>,
}

impl Print for Stubborn {
    fn print<D: std::fmt::Display + Drop>(&self, _value: D) -> io::Result<()> {
        Ok(())
    }

    fn println<D: std::fmt::Display + Drop>(&self, _value: D) -> io::Result<()> {
        Ok(())
    }

    fn write_all(&self, _bytes: &[u8]) -> io::Result<()> {
        Ok(())
    }

    fn write_some(&self, bytes: &[u8]) -> io::Result<usize> {
        let left = self.left.get();
        self.left.set(left.saturating_sub(1));
        match left {
            0 => Err(Error::from(ErrorKind::BrokenPipe)),
            1 => Ok(0),
            _ => Ok(bytes.len().min(1)),
        }
    }
}

fn mem_file(rt: &impl Abort, alloc: Global, title: &str, contents: &str) -> MemFile {
    MemFile {
        name: Name::from_str(alloc, title).expect(rt, "memory"),
        contents: Octets::from_slice(alloc, contents.as_bytes()).expect(rt, "memory"),
    }
}

/// Titles and contents.
const FILES: [(&'static str, &'static str); 3] = [
    ("one", "first"),
    ("two", "second"),
    ("one", "later"),
];

fn mem_files(rt: &impl Abort, alloc: Global) -> ListOf<MemFile> {
    let mut files = ListOf::new(alloc);
    for (title, contents) in &FILES {
        files
            .push(mem_file(rt, alloc, title, contents))
            .expect(rt, "memory");
    }
    files
}

/// What a file of this title is read as.
fn read(
    rt: &impl Abort,
    alloc: Global,
    files: &mut impl Files,
    title: &str,
) -> Result<Octets, FileFault> {
    let title = Name::from_str(alloc, title).expect(rt, "memory");
    let read = files.read(alloc, &title);
    drop(title);
    read
}

/// Whether a file of this title is read, with these contents.
fn gives(
    rt: &impl Abort,
    alloc: Global,
    files: &mut impl Files,
    title: &str,
    contents: &[u8],
) -> bool {
    let read = read(rt, alloc, files, title);
    let is_so = match &read {
        Ok(octets) => octets.as_slice() == contents,
        Err(_) => false,
    };
    drop(read);
    is_so
}

/// Why a file of this title is not read.
fn fault(rt: &impl Abort, alloc: Global, files: &mut impl Files, title: &str) -> Option<FileFault> {
    read(rt, alloc, files, title).err()
}

/// Whether a file on the disk that is there for this time alone is read as it is.
fn is_read_of_disk(
    rt: &impl Abort,
    disk: HostRuntime,
    files: &mut DiskFiles<HostRuntime>,
    path: &str,
) -> bool {
    let text = "first\nsecond\n"
        .repeat(disk.alloc(), 1_000)
        .expect(rt, "memory");
    fs::write(&disk, path, text.as_str()).expect(rt, "the file is written");
    let is_read = gives(rt, disk.alloc(), files, path, text.as_bytes());
    drop(text);
    fs::remove_file(&disk, path).expect(rt, "the file is removed");
    is_read
}

#[test]
fn disk_files_hand_up_a_file_and_count_one_that_is_not_there(rt: HostRuntime) {
    let id = std::process::id(rt.process());
    let path = format!(in rt.alloc(); "/tmp/osi_base_{id}").expect(&rt, "memory");
    let mut files = DiskFiles { rt, faults: 0 };
    let is_read = is_read_of_disk(&rt, rt, &mut files, path.as_str());
    let before = files.faults;
    let why = fault(&rt, rt.alloc(), &mut files, path.as_str());
    drop(path);
    assert!(rt; is_read);
    assert!(rt; before == 0);
    assert!(rt; why == Some(FileFault::Failed));
    assert!(rt; files.faults == 1);
}

/// A title, and the contents of its file or why it isn't read.
#[derive(Clone, Copy)]
enum Asked {
    Gives(&'static str, &'static str),
    Fails(&'static str, FileFault),
}

/// Each file is read as it should be: what a row shows, and the row.
fn go(rt: &impl Abort, alloc: Global, files: &mut impl Files, rows: &[(&'static str, Asked)]) {
    for (shows, row) in rows.iter() {
        let is_so = match row {
            Asked::Gives(title, contents) => gives(rt, alloc, files, title, contents.as_bytes()),
            Asked::Fails(title, why) => fault(rt, alloc, files, title) == Some(*why),
        };
        assert!(rt; is_so, "{shows}");
    }
}

const FAILING: [(&'static str, Asked); 4] = [
    ("a call that doesn't fail", Asked::Gives("one", "first")),
    (
        "the first that is to fail",
        Asked::Fails("one", FileFault::Failed),
    ),
    (
        "the second that is to fail",
        Asked::Fails("one", FileFault::Failed),
    ),
    (
        "a name with no file",
        Asked::Fails("on", FileFault::Missing),
    ),
];

#[test]
fn files_in_memory_are_found_by_name_and_fail_where_they_are_to(rt: HostRuntime) {
    let alloc = rt.alloc();
    let mut files = MemFiles::new(alloc, mem_files(&rt, alloc), failing(&rt, alloc, &[1, 2]));
    go(&rt, alloc, &mut files, &FAILING);
    let faults = files.failing.faults;
    let asked = files.asked.len();
    drop(files);
    assert!(rt; faults == 2);
    assert!(rt; asked == 4);
}

const SURE: [(&'static str, Asked); 2] = [
    ("a name with a file", Asked::Gives("one", "first")),
    (
        "a name with no file",
        Asked::Fails("on", FileFault::Missing),
    ),
];

#[test]
fn files_that_never_fail_are_found_by_name(rt: HostRuntime) {
    let mut files = SureFiles::new(rt.alloc(), mem_files(&rt, rt.alloc()));
    go(&rt, rt.alloc(), &mut files, &SURE);
    let asked = files.asked.len();
    drop(files);
    assert!(rt; asked == 2);
}

/// One file of so many octets.
fn long_file(rt: &impl Abort, alloc: Global, length: usize) -> ListOf<MemFile> {
    let mut files = ListOf::new(alloc);
    let octets = vec![in alloc; 0; length].expect(rt, "memory");
    let file = MemFile {
        name: Name::from_str(alloc, "long").expect(rt, "memory"),
        contents: Octets::from_vec(octets),
    };
    files.push(file).expect(rt, "memory");
    files
}

/// How many octets are handed up of a file that has so many.
fn handed_up(rt: &impl Abort, alloc: Global, length: usize) -> usize {
    let mut files = SureFiles::new(alloc, long_file(rt, alloc, length));
    let octets = read(rt, alloc, &mut files, "long").expect(rt, "the file is read");
    drop(files);
    let count = octets.len();
    drop(octets);
    count
}

/// How many octets a file has, and how many are handed up.
const LENGTHS: [(usize, usize); 3] = [
    (16_777_216, 16_777_216),
    (16_777_217, 16_777_217),
    (16_777_218, 16_777_217),
];

/// A file that is read whole has 16,777,216 octets at most: one octet more is handed up, so that a
/// longer file is seen to be.
#[test]
fn one_octet_more_than_a_whole_file_is_handed_up(rt: HostRuntime) {
    for (length, count) in &LENGTHS {
        assert!(rt;
            handed_up(&rt, rt.alloc(), *length) == *count,
            "{length} octets"
        );
    }
}

#[test]
fn a_sink_in_memory_keeps_what_was_written_before_a_failure(rt: HostRuntime) {
    let mut out = MemSink::new(rt.alloc(), 2, failing(&rt, rt.alloc(), &[2]));
    let first = write_all(&mut out, b"abcdefg");
    let is_cut = out.written.as_slice() == b"abcd".as_slice();
    let second = write_all(&mut out, b"efg");
    let is_whole = out.written.as_slice() == b"abcdefg".as_slice();
    let faults = out.failing.faults;
    drop(out);
    assert!(rt; first == Err(SinkFault::Failed));
    assert!(rt; is_cut);
    assert!(rt; second == Ok(()));
    assert!(rt; is_whole);
    assert!(rt; faults == 1);
}

/// Two calls in a row fail and write nothing, and the third takes two octets.
#[test]
fn a_sink_in_memory_fails_at_each_call_that_is_to(rt: HostRuntime) {
    let mut out = MemSink::new(rt.alloc(), 2, failing(&rt, rt.alloc(), &[0, 1]));
    let first = out.write(b"abc");
    let second = out.write(b"abc");
    let is_empty = out.written.len() == 0;
    let third = out.write(b"abc");
    let is_cut = out.written.as_slice() == b"ab".as_slice();
    let faults = out.failing.faults;
    drop(out);
    assert!(rt; first == Err(SinkFault::Failed));
    assert!(rt; second == Err(SinkFault::Failed));
    assert!(rt; is_empty);
    assert!(rt; third == Ok(2));
    assert!(rt; is_cut);
    assert!(rt; faults == 2);
}

#[test]
fn a_sink_that_never_fails_keeps_all(rt: HostRuntime) {
    let mut out = SureSink::new(rt.alloc());
    let done = write_all(&mut out, b"abc");
    let is_kept = out.written.as_slice() == b"abc".as_slice();
    drop(out);
    assert!(rt; done == Ok(()));
    assert!(rt; is_kept);
}

#[test]
fn a_standard_output_that_takes_nothing_or_fails_is_a_fault(rt: HostRuntime) {
    let left = std::cell::Cell::new(2);
    let mut out = StdSink {
        rt: Stubborn { left },
        faults: 0,
    };
    let first = out.write(b"ab");
    let before = out.faults;
    let second = out.write(b"ab");
    let third = out.write(b"ab");
    let after = out.faults;
    drop(out);
    assert!(rt; first == Ok(1));
    assert!(rt; before == 0);
    assert!(rt; second == Err(SinkFault::Failed));
    assert!(rt; third == Err(SinkFault::Failed));
    assert!(rt; after == 2);
}
