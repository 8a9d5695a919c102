//! TCP as a line.

ghost use Rattle.std.specs.Prelude.{◌≡◌, ◌+◌, ◌<◌, ◌≤◌, min, None, IfSome, OnOk, OnErr, IsErrOf, length};
ghost use Rattle.osi_base.specs.Limits.{last_count};

use crate::line::{Failed, Line, LineFault};
use crate::name::Name;
use std::alloc::Global;
use std::io::{ErrorKind, Read, Write};
use std::net::{Ipv4Addr, Net, OpenListener, OpenStream, Shutdown, TcpListener, TcpStream};

/// A line over TCP. Its log isn't told. A call that needs a connection fails where there is none.
#[derive(Drop)]
pub struct TcpLine<R: Net> {
    /// The runtime that the program was given.
    pub rt: R,
    listener: Option<(u16, R::Listener)>,
    stream: Option<R::Stream>,
    /// How often the line failed.
    pub faults: u64,
    /// How many octets were read on the present connection.
    pub octets_read: u64,
}

impl<R: Net> TcpLine<R> {
    /// A line without a connection.
    pub fn new(rt: R) -> TcpLine<R>
        ensures faults { result.faults ≡ 0 }
        ensures octets_read { result.octets_read ≡ 0 }
    {
        TcpLine {
            rt,
            listener: None,
            stream: None,
            faults: 0,
            octets_read: 0,
        }
    }

    /// Waits for a peer at this port. It goes on listening there until it is to at another port.
    fn next_peer(&mut self, port: u16) -> Option<R::Stream>
        ensures faults { self.new.faults ≡ self.old.faults }
    {
        let listener = match self.listener.take() {
            Some((old, listener)) if old == port => listener,
            _ => TcpListener::bind(&self.rt, (Ipv4Addr::UNSPECIFIED, port)).ok()?,
        };
        let accepted = listener.accept();
        self.listener = Some((port, listener));
        accepted.ok().map(|(stream, _)| stream)
    }

    /// Begins this connection, or counts a fault where there is none.
    fn begin(&mut self, stream: Option<R::Stream>) -> Result<(), LineFault>
        ensures count { self.old.faults ≤ self.new.faults }
        ensures ok { OnOk result (self.new.faults ≡ self.old.faults) }
        ensures begins { self.new.octets_read ≡ 0 }
        ensures failed { OnErr result (self.new.faults ≡ min (self.old.faults + 1) last_count) }
        ensures no_memory { ¬ (IsErrOf result LineFault.NoMemory) }
    {
        self.octets_read = 0;
        self.stream = stream;
        match self.stream {
            Some(_) => Ok(()),
            None => Err(self.fail()),
        }
    }

    /// Counts a fault.
    fn fail(&mut self) -> LineFault
        ensures failed { result ≡ LineFault.Failed }
        ensures count { self.old.faults ≤ self.new.faults }
        ensures faults { self.new.faults ≡ min (self.old.faults + 1) last_count }
        ensures octets_read { self.new.octets_read ≡ self.old.octets_read }
    {
        self.faults = self.faults.saturating_add(1);
        LineFault::Failed
    }
}

/// Reads octets into the front of this room. None are the end.
fn read_some<T: Read>(stream: &mut T, room: &mut [u8]) -> Option<usize>
    ensures within { IfSome result (λ filled. filled ≤ length room.new) }
{
    for _ in 0..u64::MAX {
        match stream.read(room) {
            Ok(filled) => return Some(filled),
            Err(error) if error.kind() == ErrorKind::Interrupted => {}
            Err(_) => return None,
        }
    }
    None
}

/// Writes the first octets of this piece: one or more, where it isn't empty.
fn write_part<T: Write>(stream: &mut T, bytes: &[u8]) -> Option<usize>
    ensures within { IfSome result (λ taken. taken ≤ length bytes.now) }
    ensures some { IfSome result (λ taken. 0 < length bytes.now → 0 < taken) }
{
    for _ in 0..u64::MAX {
        match stream.write(bytes) {
            Ok(0) if !bytes.is_empty() => return None,
            Ok(taken) => return Some(taken),
            Err(error) if error.kind() == ErrorKind::Interrupted => {}
            Err(_) => return None,
        }
    }
    None
}

impl<R: Net> Line for TcpLine<R> {
    ghost faults = { λ it. it.faults };

    ghost told = { λ _. None };

    ghost octets_read = { λ it. it.octets_read };

    fn open(&mut self, _alloc: Global, host: &Name, port: u16) -> Result<(), LineFault> {
        let stream = TcpStream::connect(&self.rt, (host.as_str(), port)).ok();
        self.begin(stream)
    }

    fn accept(&mut self, _alloc: Global, port: u16) -> Result<(), LineFault> {
        let stream = self.next_peer(port);
        self.begin(stream)
    }

    fn read(&mut self, room: &mut [u8]) -> Result<usize, LineFault> {
        let Some(stream) = &mut self.stream else {
            return Err(self.fail());
        };
        let Some(filled) = read_some(stream, room) else {
            return Err(self.fail());
        };
        self.octets_read = self.octets_read.saturating_add(filled as u64);
        Ok(filled)
    }

    fn write(&mut self, bytes: &[u8]) -> Result<usize, LineFault> {
        let Some(stream) = &mut self.stream else {
            return Err(self.fail());
        };
        match write_part(stream, bytes) {
            Some(taken) => Ok(taken),
            None => Err(self.fail()),
        }
    }

    fn shut(&mut self) -> Result<(), Failed> {
        let stream = self.stream.take();
        if let Some(stream) = stream
            && stream.shutdown(Shutdown::Both).is_ok()
        {
            return Ok(());
        }
        self.faults = self.faults.saturating_add(1);
        Err(Failed)
    }
}
