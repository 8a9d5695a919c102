//! A connection that takes a part of a write, is interrupted, and then fails.

ghost use Rattle.std.specs.Prelude.{◌≤◌, IfOk};

use crate::calls::{Step, go};
use osi_base::{LineFault, TcpLine};
use std::cell::Cell;
use std::io;
use std::io::{Error, ErrorKind, Read, Write};
use std::net::{Net, OpenListener, OpenStream, SocketAddr};
use std::os::fd::{AsRawFd, RawFd};
use std::test::*;

/// Which call of the connection is the next: the first is done in part, the second is interrupted,
/// the third is done, and the fourth and all later ones fail.
#[derive(Drop)]
struct Steps {
    next: Cell<u32>,
}

impl Steps {
    /// How many of so many octets the next call takes or gives.
    fn step(&self, count: usize) -> io::Result<usize>
        ensures { IfOk result (λ done. done ≤ count) }
    {
        let next = self.next.get();
        self.next.set(next.saturating_add(1));
        match next {
            0 => Ok(count.min(1)),
            1 => Err(Error::from(ErrorKind::Interrupted)),
            2 => Ok(count),
            _ => Err(Error::from(ErrorKind::ConnectionReset)),
        }
    }
}

#[derive(Drop)]
struct BrokenStream {
    steps: Steps,
}

impl Read for BrokenStream {
    fn read(&mut self, buf: &mut [u8]) -> io::Result<usize> {
        self.steps.step(buf.len())
    }
}

impl Write for BrokenStream {
    fn write(&mut self, buf: &[u8]) -> io::Result<usize> {
        self.steps.step(buf.len())
    }

    fn flush(&mut self) -> io::Result<()> {
        Ok(())
    }
}

impl OpenStream for BrokenStream {}

impl AsRawFd for BrokenStream {
    fn as_raw_fd(&self) -> RawFd {
        -1
    }
}

/// No one calls at it.
#[derive(Drop)]
struct NoListener;

impl OpenListener for NoListener {
    type Stream = BrokenStream;

    fn accept(&self) -> io::Result<(BrokenStream, SocketAddr)> {
        Err(Error::from(ErrorKind::Unsupported))
    }
}

impl AsRawFd for NoListener {
    fn as_raw_fd(&self) -> RawFd {
        -1
    }
}

/// A network of such connections.
#[derive(Drop)]
struct BrokenNet;

impl Net for BrokenNet {
    type Stream = BrokenStream;

    type Listener = NoListener;

    fn bind(&self, _addr: SocketAddr) -> io::Result<NoListener> {
        Ok(NoListener)
    }

    fn connect(&self, _addr: SocketAddr) -> io::Result<BrokenStream> {
        let next = Cell::new(0);
        Ok(BrokenStream {
            steps: Steps { next },
        })
    }
}

/// The calls before the fault.
const WRITTEN: [Step; 3] = [
    Step::Open("127.0.0.1", Ok(())),
    Step::Write("abc", Ok(1)),
    Step::Write("bc", Ok(2)),
];

const NOT_WRITTEN: [Step; 1] = [Step::Write("d", Err(LineFault::Failed))];

#[test]
fn a_part_of_a_write_is_told_as_a_part(rt: HostRuntime) {
    let mut line = TcpLine::new(BrokenNet);
    go(&rt, rt.alloc(), &mut line, "written", &WRITTEN);
    let before = line.faults;
    go(&rt, rt.alloc(), &mut line, "not written", &NOT_WRITTEN);
    let after = line.faults;
    drop(line);
    assert!(rt; before == 0);
    assert!(rt; after == 1);
}

const READ: [Step; 4] = [
    Step::Open("127.0.0.1", Ok(())),
    Step::ReadFour(Ok(1)),
    Step::ReadFour(Ok(4)),
    Step::ReadFour(Err(LineFault::Failed)),
];

#[test]
fn a_part_of_a_read_is_told_as_a_part(rt: HostRuntime) {
    let mut line = TcpLine::new(BrokenNet);
    go(&rt, rt.alloc(), &mut line, "read", &READ);
    let octets_read = line.octets_read;
    let faults = line.faults;
    drop(line);
    assert!(rt; octets_read == 5);
    assert!(rt; faults == 1);
}

const NO_CALLER: [Step; 1] = [Step::Accept(102, Err(LineFault::Failed))];

#[test]
fn no_one_who_calls_is_a_fault(rt: HostRuntime) {
    let mut line = TcpLine::new(BrokenNet);
    go(&rt, rt.alloc(), &mut line, "no one calls", &NO_CALLER);
    let faults = line.faults;
    drop(line);
    assert!(rt; faults == 1);
}
