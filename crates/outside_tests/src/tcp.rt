//! TCP as a line, over loopback.

use crate::calls::{Step, go};
use osi_base::{Failed, Line, LineFault, Name, TcpLine};
use std::alloc::Global;
use std::io;
use std::io::{Read, Write};
use std::net::{Net, OpenListener, OpenStream, SocketAddr, TcpListener, TcpStream};
use std::process::Abort;
use std::test::*;

/// A network in which a peer calls each port as soon as someone listens there, says five octets and
/// ends.
#[derive(Drop)]
struct Talkative {
    rt: HostRuntime,
}

/// Calls this address, says five octets and ends.
fn talk(rt: &HostRuntime, addr: SocketAddr) -> io::Result<()> {
    let mut peer = rt.connect(addr)?;
    let told = peer.write_all(b"abcde");
    drop(peer);
    told
}

impl Net for Talkative {
    type Stream = TcpStream;

    type Listener = TcpListener;

    fn bind(&self, addr: SocketAddr) -> io::Result<TcpListener> {
        let listener = self.rt.bind(addr)?;
        talk(&self.rt, listener.local_addr()?)?;
        Ok(listener)
    }

    fn connect(&self, addr: SocketAddr) -> io::Result<TcpStream> {
        self.rt.connect(addr)
    }
}

/// Someone who listens, and the port.
fn listening(rt: &impl Abort, net: &HostRuntime) -> (TcpListener, u16) {
    let listener = TcpListener::bind(net, "127.0.0.1:0").expect(rt, "a port is free");
    let addr = listener.local_addr().expect(rt, "it has an address");
    (listener, addr.port())
}

/// What a call for a connection to this port gives.
fn opened(
    rt: &impl Abort,
    alloc: Global,
    line: &mut TcpLine<&HostRuntime>,
    port: u16,
) -> Result<(), LineFault> {
    let host = Name::from_str(alloc, "127.0.0.1").expect(rt, "memory");
    let opened = line.open(alloc, &host, port);
    drop(host);
    opened
}

/// The peer of a line that calls a listener.
fn connected(rt: &impl Abort, net: &HostRuntime, line: &mut TcpLine<&HostRuntime>) -> TcpStream {
    let (listener, port) = listening(rt, net);
    opened(rt, net.alloc(), line, port).expect(rt, "the line is open");
    let (peer, _) = listener.accept().expect(rt, "the line calls");
    drop(listener);
    peer
}

const ABC: [Step; 1] = [Step::Gives("abc")];

#[test]
fn octets_come_from_the_peer(rt: HostRuntime) {
    let mut line = TcpLine::new(&rt);
    let mut peer = connected(&rt, &rt, &mut line);
    peer.write_all(b"abc").expect(&rt, "the peer writes");
    go(&rt, rt.alloc(), &mut line, "octets", &ABC);
    drop(peer);
    let is_counted = line.octets_read == 3 && line.faults == 0;
    drop(line);
    assert!(rt; is_counted);
}

const HELLO: [Step; 1] = [Step::Write("hello", Ok(5))];

#[test]
fn octets_go_to_the_peer(rt: HostRuntime) {
    let mut line = TcpLine::new(&rt);
    let mut peer = connected(&rt, &rt, &mut line);
    go(&rt, rt.alloc(), &mut line, "octets", &HELLO);
    let mut room = [0; 5];
    peer.read_exact(&mut room).expect(&rt, "the peer reads");
    drop(peer);
    drop(line);
    assert!(rt; room.as_slice() == b"hello".as_slice());
}

const SHUT: [Step; 1] = [Step::Shut(Ok(()))];

#[test]
fn a_shut_is_the_end_for_the_peer(rt: HostRuntime) {
    let mut line = TcpLine::new(&rt);
    let mut peer = connected(&rt, &rt, &mut line);
    go(&rt, rt.alloc(), &mut line, "the shut", &SHUT);
    let count = peer.read(&mut [0; 8]).expect(&rt, "the peer reads");
    drop(peer);
    let faults = line.faults;
    drop(line);
    assert!(rt; count == 0);
    assert!(rt; faults == 0);
}

const TALK: [Step; 3] = [
    Step::Accept(0, Ok(())),
    Step::Gives("abcde"),
    Step::Gives(""),
];

#[test]
fn the_end_of_the_peer_is_a_read_of_nothing(rt: HostRuntime) {
    let net = Talkative { rt };
    let mut line = TcpLine::new(&net);
    go(&rt, rt.alloc(), &mut line, "a peer that talks", &TALK);
    let is_counted = line.octets_read == 5 && line.faults == 0;
    drop(line);
    assert!(rt; is_counted);
}

/// A port at which no one listens.
fn free_port(rt: &impl Abort, net: &HostRuntime) -> u16 {
    let (listener, port) = listening(rt, net);
    drop(listener);
    port
}

#[test]
fn a_call_where_no_one_listens_is_a_fault(rt: HostRuntime) {
    let port = free_port(&rt, &rt);
    let mut line = TcpLine::new(&rt);
    let opened = opened(&rt, rt.alloc(), &mut line, port);
    let faults = line.faults;
    drop(line);
    assert!(rt; opened == Err(LineFault::Failed));
    assert!(rt; faults == 1);
}

const UNCONNECTED: [Step; 3] = [
    Step::Read(Err(LineFault::Failed)),
    Step::Write("abc", Err(LineFault::Failed)),
    Step::Shut(Err(Failed)),
];

#[test]
fn a_line_without_a_connection_fails(rt: HostRuntime) {
    let mut line = TcpLine::new(&rt);
    go(&rt, rt.alloc(), &mut line, "no connection", &UNCONNECTED);
    let faults = line.faults;
    drop(line);
    assert!(rt; faults == 3);
}
