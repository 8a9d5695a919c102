//! Values of types.

ghost use Rattle.std.specs.Prelude.{◌≡◌, length, IfOk};
ghost use Rattle.asn1_types.specs.ValueView.{empty_slots};

use crate::row::Part;
use osi_base::{Copied, NoMemory, Octets, Oid};
use std::alloc::Global;
use std::marker::Model;

/// A value of a type. Which node stands where is the matter of the type: `fits` tells it.
#[cycle(val)]
#[derive(Debug, Drop)]
pub struct Val {
    /// What it is made of.
    pub node: Node,
}

/// The parts of a SEQUENCE or SET in the order of the notation, each with its value or absent.
pub type MaybeVals = Vec<Option<Val>>;

/// The items of a SEQUENCE OF or SET OF; those of a SET OF by rising DER spellings.
pub type Vals = Vec<Val>;

/// What a value is.
#[cycle(val)]
#[derive(Debug, Drop)]
pub enum Node {
    /// Of BOOLEAN.
    Bool(bool),
    /// Of INTEGER or ENUMERATED.
    Int(i64),
    /// Of NULL.
    Null,
    /// Of OCTET STRING.
    Octets(Octets),
    /// Of BIT STRING: the octets, and how many bits of the last, 0 to 7, aren't part of it.
    Bits { octets: Octets, unused: u8 },
    /// Of OBJECT IDENTIFIER.
    ObjectId(Oid),
    /// Of the kinds of text, as octets.
    Text(Octets),
    /// Of SEQUENCE or SET.
    Parts(MaybeVals),
    /// Of SEQUENCE OF or SET OF.
    List(Vals),
    /// Of CHOICE: the alternative's place from 0, and its value.
    Chosen { which: u32, value: Box<Val> },
    /// One whole BER value, kept as octets.
    Any(Octets),
}

impl Model for Val {
    ghost use Rattle.asn1_types.specs.Value as tree;
    ghost use Rattle.asn1_types.specs.ValueCode.{coded_value};

    ghost Value = { tree.Value };

    ghost coded = { coded_value };

    ghost use Rattle.asn1_types.specs.ValueView.{value_of};

    ghost view = { λ v. value_of v.node };

    ghost size = { tree.depth };

    ghost use Rattle.asn1_types.specs.ValueFalls.{falls};

    ghost size_decreases = { λ v h. falls v.node };
}

impl Copied for Val {
    fn copy(&self, alloc: Global) -> Result<Val, NoMemory> {
        copied(alloc, self)
    }
}

#[cycle(copying)]
fn copied(alloc: Global, value: &Val) -> Result<Val, NoMemory>
    ensures { IfOk result (λ copy. copy ≡ value.now) }
{
    let node = match &value.node {
        Node::Bool(truth) => Node::Bool(*truth),
        Node::Int(number) => Node::Int(*number),
        Node::Null => Node::Null,
        Node::Octets(octets) => Node::Octets(octets.copy(alloc)?),
        Node::Bits { octets, unused } => Node::Bits {
            octets: octets.copy(alloc)?,
            unused: *unused,
        },
        Node::ObjectId(oid) => Node::ObjectId(oid.copy(alloc)?),
        Node::Text(octets) => Node::Text(octets.copy(alloc)?),
        Node::Parts(parts) => Node::Parts(copied_parts(alloc, parts)?),
        Node::List(items) => Node::List(copied_list(alloc, items)?),
        Node::Chosen { which, value } => Node::Chosen {
            which: *which,
            value: Box::new(alloc, copied(alloc, value)?)?,
        },
        Node::Any(octets) => Node::Any(octets.copy(alloc)?),
    };
    Ok(Val { node })
}

#[cycle(copying)]
fn copied_parts(alloc: Global, parts: &[Option<Val>]) -> Result<MaybeVals, NoMemory>
    ensures { IfOk result (λ copy. copy.items ≡ parts.now) }
{
    let mut copy = Vec::new(alloc);
    for part in parts {
        let one = match part {
            Some(value) => Some(copied(alloc, value)?),
            None => None,
        };
        copy.push(one)?;
    }
    Ok(copy)
}

#[cycle(copying)]
fn copied_list(alloc: Global, items: &[Val]) -> Result<Vals, NoMemory>
    ensures { IfOk result (λ copy. copy.items ≡ items.now) }
{
    let mut copy = Vec::new(alloc);
    for value in items {
        copy.push(copied(alloc, value)?)?;
    }
    Ok(copy)
}

/// A slot for each part, with no value in it.
#[tactic(auto, using(crate::proofs::Slots::empty_more, crate::proofs::Slots::empty_all, crate::proofs::Slots::empty_length))]
pub fn empty_slots(alloc: Global, parts: &[Part]) -> Result<MaybeVals, NoMemory>
    ensures empty { IfOk result (λ slots. slots.items ≡ empty_slots parts.now) }
    ensures as_many { IfOk result (λ slots. length slots.items ≡ length parts.now) }
{
    let mut slots = Vec::new(alloc);
    for _part in parts {
        slots.push(None)?;
    }
    Ok(slots)
}
