//! One direction of a recorded dialogue.

ghost use Rattle.std.specs.Prelude.{◌≡◌, [], ℕ, List, ◌++◌, IfOk, OnOk, codes};
ghost use Rattle.stub_tables.specs.declared.tables.Tables.{Tables};
ghost use Rattle.trace_units.specs.declared.said_text.Said.TheVariants as saids;
ghost use Rattle.trace_text.specs.Directions.{PacketSaid};
ghost use Rattle.trace_text.specs.Trace.{Sent, line_from, nothing_sent};
ghost use Rattle.trace_text.specs.ShownSoFar.{PutSaid, PacketPut, StopPut, AllPut, Stands};
ghost use Rattle.trace_text.specs.ShownSoFar.{StandsFor, ShownWith, BothStand, RecordShown};

use osi_base::{NoMemory, Octets, Side};
use std::alloc::Global;
use tpkt::{Packet, TFault, TReader};
use trace_file::Recorded;
use trace_units::{Said, Viewer, direction_word, fault_text, split_first};
use value_text::Text;

/// What one end sent, as far as it was recorded. Behind a fault nothing more is said of it.
#[derive(Drop)]
pub(crate) struct Direction {
    reader: TReader,
    is_over: bool,
}

fn put_line(text: &mut Text, from: Side, line: &Octets) -> Result<(), NoMemory>
    ensures { OnOk result (text.new ≡ text.old ++ line_from from line.now) }
{
    text.put(direction_word(from))?;
    text.put(" ")?;
    text.put_raw(line.as_slice())?;
    text.end_line()
}

fn name_said(alloc: Global, name: &str) -> Result<Said, NoMemory>
    ensures { IfOk result (λ said. said ≡ saids.Line name.now) }
{
    Ok(Said::Line(Octets::from_slice(alloc, name.as_bytes())?))
}

fn packet_said(viewer: &Viewer, packet: &Packet) -> Result<Said, NoMemory>
    ensures { IfOk result (PacketSaid viewer.now.tables.now packet.now) }
{
    match packet {
        Packet::Connect(_) => name_said(viewer.alloc, "CR"),
        Packet::Confirm(_) => name_said(viewer.alloc, "CC"),
        Packet::Disconnect => name_said(viewer.alloc, "DR"),
        Packet::Problem => name_said(viewer.alloc, "ER"),
        Packet::Tsdu(tsdu) => viewer.tsdu_said(tsdu.as_slice()),
    }
}

/// Puts what is said as a line, and answers whether the direction is over.
fn put_said(from: Side, said: &Said, text: &mut Text) -> Result<bool, NoMemory>
    ensures { IfOk result (λ over. PutSaid from said.now over text.old text.new) }
{
    match said {
        Said::Line(line) => {
            put_line(text, from, line)?;
            Ok(false)
        }
        Said::Fault(fault) => {
            put_line(text, from, fault)?;
            Ok(true)
        }
    }
}

fn put_packet(
    viewer: &Viewer,
    from: Side,
    packet: &Packet,
    text: &mut Text,
) -> Result<bool, NoMemory>
    ensures { IfOk result (λ over. PacketPut viewer.now.tables.now from packet.now over text.old
        text.new) }
{
    let said = packet_said(viewer, packet)?;
    let over = put_said(from, &said, text)?;
    Ok(over)
}

/// Puts the fault of a stream, where there is one, and answers whether there is.
fn put_stop(
    viewer: &Viewer,
    from: Side,
    stop: Option<TFault>,
    text: &mut Text,
) -> Result<bool, NoMemory>
    ensures { IfOk result (λ over. StopPut from stop over text.old text.new) }
{
    match stop {
        None => Ok(false),
        Some(fault) => {
            let line = fault_text(viewer.alloc, "transport", fault.place, fault.kind)?;
            put_line(text, from, &line)?;
            Ok(true)
        }
    }
}

/// Puts what is said of packets and of the fault of their stream, up to the first fault, and
/// answers whether there is one.
fn put_all(
    viewer: &Viewer,
    from: Side,
    packets: &[Packet],
    stop: Option<TFault>,
    text: &mut Text,
) -> Result<bool, NoMemory>
    ensures { IfOk result (λ over. AllPut viewer.now.tables.now from packets.now stop over text.old
        text.new) }
{
    let mut rest = packets;
    while let Some((packet, more)) = split_first(rest) {
        if put_packet(viewer, from, packet, text)? {
            return Ok(true);
        }
        rest = more;
    }
    let over = put_stop(viewer, from, stop, text)?;
    Ok(over)
}

impl Direction {
    fn new(alloc: Global) -> Direction
        ensures { (tables : Tables) → Stands tables [] [] result }
    {
        Direction {
            reader: TReader::new(alloc),
            is_over: false,
        }
    }

    /// Puts what the next octets of this direction say behind the text.
    fn show(
        &mut self,
        viewer: &Viewer,
        from: Side,
        octets: &[u8],
        text: &mut Text,
    ) -> Result<(), NoMemory>
        ensures { (sent : List ℕ) → StandsFor viewer.now.tables.now sent self.old
            → OnOk result (ShownWith viewer.now.tables.now from sent octets.now self.new
            text.old text.new) }
    {
        if self.is_over {
            return Ok(());
        }
        let fed = self.reader.feed(octets)?;
        self.is_over = put_all(viewer, from, fed.packets.as_slice(), fed.fault, text)?;
        Ok(())
    }
}

/// Both directions of a recorded dialogue.
#[derive(Drop)]
pub(crate) struct Directions {
    a: Direction,
    b: Direction,
}

impl Directions {
    /// Nothing was sent yet.
    pub(crate) fn new(alloc: Global) -> Directions
        ensures { (tables : Tables) → BothStand tables nothing_sent result }
    {
        Directions {
            a: Direction::new(alloc),
            b: Direction::new(alloc),
        }
    }

    /// Puts what the next record says behind the text.
    pub(crate) fn show(
        &mut self,
        viewer: &Viewer,
        recorded: &Recorded,
        text: &mut Text,
    ) -> Result<(), NoMemory>
        ensures { (sent : Sent) → BothStand viewer.now.tables.now sent self.old
            → OnOk result (RecordShown viewer.now.tables.now recorded.now.from recorded.now.octets
            sent self.new text.old text.new) }
    {
        let octets = recorded.octets.as_slice();
        match recorded.from {
            Side::A => self.a.show(viewer, Side::A, octets, text),
            Side::B => self.b.show(viewer, Side::B, octets, text),
        }
    }
}
