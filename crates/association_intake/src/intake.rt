//! What came and wasn't reacted to.

ghost use Rattle.std.specs.Prelude.{◌≡◌, Some, None, option_map, IsSome, IfOk, OnOk, OnErr};
ghost use Rattle.association_reading.specs.Front as reading;
ghost use Rattle.association_intake.specs.Seen.{seen_front, IsPlaced, TakesFirst};
ghost use Rattle.association_intake.specs.View.{view_of, IsSoundIntake};

use crate::front::Front;
use crate::packets::push_packets;
use osi_base::{Layer, NoMemory};
use std::alloc::Global;
use std::collections::VecDeque;
use std::marker::Model;
use tpkt::{TFault, TReader};

/// The reader of packets, what it handed up, and the fault of its stream.
#[derive(Drop)]
struct Parts {
    reader: TReader,
    fronts: VecDeque<Front>,
    fault: Option<TFault>,
}

/// What came on a connection and wasn't reacted to: whole units, and what the reader of packets
/// holds, at most one packet and one TSDU. It takes octets in any cutting, in time that is linear
/// in them.
///
/// A contract sees `None` where memory once ran out: such an intake keeps nothing, and answers each
/// later feed with `NoMemory`.
#[derive(Drop)]
pub struct Intake {
    alloc: Global,
    parts: Option<Parts>,
}

impl Model for Intake {
    ghost use Rattle.std.specs.Prelude.{Option};
    ghost use Rattle.association_reading.specs.Front as reading;

    ghost Value = { Option reading.Intake };

    ghost use Rattle.association_intake.specs.View.{view_of, IsSoundIntake};

    ghost view = { λ intake. view_of intake.parts };

    ghost invariant = { λ intake. IsSoundIntake intake.parts };
}

impl Parts {
    /// Takes octets that came.
    fn feed(self, alloc: Global, bytes: &[u8]) -> Result<Parts, NoMemory>
        requires { IsSoundIntake (Some self) }
        ensures is { IfOk result (λ parts. view_of (Some parts)
            ≡ option_map (reading.with_octets bytes.now) (view_of (Some self))) }
        ensures up { IfOk result (λ parts. IsSome (view_of (Some parts))) }
        ensures sound { IfOk result (λ parts. IsSoundIntake (Some parts)) }
    {
        let Parts {
            mut reader,
            mut fronts,
            fault: _,
        } = self;
        let fed = reader.feed(bytes)?;
        push_packets(alloc, &mut fronts, fed.packets.as_slice())?;
        Ok(Parts {
            reader,
            fronts,
            fault: fed.fault,
        })
    }

    /// Takes off what stands first. A fault of the transport stands behind all that was whole.
    fn take(&mut self) -> Front
        requires { IsSoundIntake (Some self.old) }
        ensures takes { TakesFirst (view_of (Some self.old)) result (view_of (Some self.new)) }
        ensures placed { IsPlaced result }
        ensures sound { IsSoundIntake (Some self.new) }
    {
        if let Some(front) = self.fronts.pop_front() {
            return front;
        }
        match self.fault {
            None => Front::Short,
            Some(fault) => Front::Faulty {
                layer: Layer::Transport,
                place: fault.place,
            },
        }
    }
}

impl Intake {
    /// At the first octet of a connection.
    pub fn new(alloc: Global) -> Intake
        ensures { result ≡ Some reading.nothing_came }
    {
        Intake {
            alloc,
            parts: Some(Parts {
                reader: TReader::new(alloc),
                fronts: VecDeque::new(alloc),
                fault: None,
            }),
        }
    }

    /// Takes octets that came. After want of memory it keeps nothing.
    pub fn feed(&mut self, bytes: &[u8]) -> Result<(), NoMemory>
        ensures ok { OnOk result (self.new ≡ option_map (reading.with_octets bytes.now) self.old) }
        ensures up { OnOk result (IsSome self.new) }
        ensures err { OnErr result (self.new ≡ None) }
    {
        let Some(parts) = self.parts.take() else {
            return Err(NoMemory);
        };
        self.parts = Some(parts.feed(self.alloc, bytes)?);
        Ok(())
    }

    /// Takes off what stands first; less than a message, and a fault of the transport, stay. It
    /// takes no memory.
    pub fn take(&mut self) -> Front
        ensures takes { TakesFirst self.old result self.new }
        ensures placed { IsPlaced result }
    {
        let Some(mut parts) = self.parts.take() else {
            return Front::Short;
        };
        let front = parts.take();
        self.parts = Some(parts);
        front
    }
}
