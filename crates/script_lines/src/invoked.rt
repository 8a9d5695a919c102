//! The operations that the invocations of both ends name.

ghost use Rattle.std.specs.Prelude.{◌≡◌, ◌++◌, ◌∷◌, ◌==◌, OnOk, [], List, length, slice_set, Some, None};
ghost use Rattle.script_lines.specs.Invoked.{no_operations, operations_of, place_of_id, put_at, noted, pushed, accepted, named_in, operation_with_id, result_type};

use asn1_types::TypeId;
use dialogue::{Call, Event};
use osi_base::{NoMemory, Side};
use std::alloc::Global;
use std::marker::Model;
use stub_tables::Tables;

/// The operations that the invocations of both ends name, as places in the table of operations.
/// Contracts see a list for each end.
#[derive(Debug, Drop)]
pub struct InvokedOperations {
    by_a: Vec<u32>,
    by_b: Vec<u32>,
}

impl Model for InvokedOperations {
    ghost use Rattle.script_lines.specs.Operations.{Operations};

    ghost Value = { Operations };

    ghost view = { λ i. record { by_a = i.by_a.items; by_b = i.by_b.items } };
}

/// The place of the invocation with this identifier among those of its end, which count from 1.
fn place_of_id(id: i64) -> Option<usize>
    ensures { result ≡ place_of_id id }
{
    let number = u64::try_from(id).ok()?;
    let place = number.checked_sub(1)?;
    Some(place as usize)
}

/// Puts an operation behind the last.
fn push(operations: &mut Vec<u32>, operation: u32) -> Result<(), NoMemory>
    ensures { OnOk result (operations.new.items ≡ operations.old.items ++ operation ∷ []) }
{
    operations.push(operation)?;
    Ok(())
}

/// Puts an operation at this place: over the one that stands there, or behind the last.
fn put_at(operations: &mut Vec<u32>, place: usize, operation: u32) -> Result<(), NoMemory>
    ensures { OnOk result (operations.new.items ≡ put_at operations.old.items place operation) }
{
    if place == operations.len() {
        return push(operations, operation);
    }
    if place < operations.len() {
        operations[place] = operation;
    }
    Ok(())
}

/// Puts the operation of the invocation with this identifier.
fn note(operations: &mut Vec<u32>, id: i64, operation: u32) -> Result<(), NoMemory>
    ensures { OnOk result (operations.new.items ≡ noted operations.old.items id operation) }
{
    match place_of_id(id) {
        Some(place) => put_at(operations, place, operation),
        None => Ok(()),
    }
}

impl InvokedOperations {
    /// Before any invocation.
    pub fn new(alloc: Global) -> InvokedOperations
        ensures { result ≡ no_operations }
    {
        InvokedOperations {
            by_a: Vec::new(alloc),
            by_b: Vec::new(alloc),
        }
    }

    /// The operations of this end's invocations, in their order.
    pub fn of(&self, side: Side) -> &[u32]
        ensures { result.now ≡ operations_of self.now side }
    {
        match side {
            Side::A => self.by_a.as_slice(),
            Side::B => self.by_b.as_slice(),
        }
    }

    /// Puts the operation of one more invocation of this end.
    pub fn push(&mut self, side: Side, operation: u32) -> Result<(), NoMemory>
        ensures { OnOk result (self.new ≡ pushed self.old side operation) }
    {
        match side {
            Side::A => push(&mut self.by_a, operation),
            Side::B => push(&mut self.by_b, operation),
        }
    }

    /// Puts the operation of this end's invocation with this identifier, which is the next of its
    /// end or was given before.
    pub fn accept(&mut self, side: Side, id: i64, operation: u32) -> Result<(), NoMemory>
        ensures { OnOk result (self.new ≡ accepted self.old side id operation) }
    {
        match side {
            Side::A => note(&mut self.by_a, id, operation),
            Side::B => note(&mut self.by_b, id, operation),
        }
    }

    /// Puts the operation that a call at this side invokes, if it invokes one, whatever it is
    /// answered.
    pub fn name(&mut self, side: Side, call: &Call) -> Result<(), NoMemory>
        ensures { OnOk result (self.new ≡ named_in self.old side call.now) }
    {
        match call {
            Call::Invoke { operation, .. } => self.push(side, *operation),
            _ => Ok(()),
        }
    }
}

/// The type of the result of the operation that the invocation with this identifier names, among
/// those of its end, where there is one.
pub fn result_type(tables: &Tables, operations: &[u32], id: i64) -> Option<TypeId>
    ensures { result ≡ result_type tables.now operations.now id }
{
    let operation = operations.get(place_of_id(id)?)?;
    tables.operation(*operation)?.result.inner
}
