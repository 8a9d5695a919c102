//! A module with one operation that has no outcome, and how an end of bare mode is set up.

ghost use Rattle.std.specs.Prelude.{◌≡◌, IfOk};
ghost use Rattle.dialogue.specs.declared.config.Mode.TheVariants.{Bare};

use crate::stopped::Stopped;
use asn1_types::{TypeId, TypeRow, TypeTable};
use dialogue::{Config, Mode};
use osi_base::{ListOf, Name, NoMemory, Octets, Oid};
use std::alloc::Global;
use stub_tables::{Code, ErrorRows, Operation, Operations, Tables, Use};

/// The operation `note`, which takes an OCTET STRING and never has an outcome, with the code 1.
fn note(alloc: Global) -> Result<Operation, NoMemory> {
    Ok(Operation {
        name: Name::from_str(alloc, "note")?,
        code: Code::Local(1),
        argument: Use {
            inner: Some(TypeId(0)),
            optional: false,
        },
        result: Use {
            inner: None,
            optional: false,
        },
        returns: false,
        always: false,
        errors: ListOf::new(alloc),
        linked: ListOf::new(alloc),
    })
}

/// The module.
pub fn module(alloc: Global) -> Result<Tables, Stopped> {
    let name = Name::from_str(alloc, "One")?;
    let name_oid = Oid::from_slice(alloc, &[2, 999, 7, 4])?;
    let note = note(alloc)?;
    let mut operations = Operations::new(alloc);
    operations.push(note)?;
    let mut types = TypeTable::new(alloc);
    let Ok(_) = types.add(TypeRow::OctetString { most: u32::MAX }) else {
        return Err(Stopped);
    };
    Ok(Tables {
        name,
        name_oid,
        types,
        operations,
        errors: ErrorRows::new(alloc),
    })
}

/// How an end is set up.
pub fn config(alloc: Global) -> Result<Config, NoMemory>
    ensures { IfOk result (λ config. config.mode ≡ Bare) }
{
    let calling = Octets::from_slice(alloc, b"a")?;
    let called = Octets::from_slice(alloc, b"b")?;
    let reference = Octets::from_slice(alloc, b"r")?;
    let common = Octets::from_slice(alloc, b"260101000000Z")?;
    Ok(Config {
        initiator: false,
        mode: Mode::Bare,
        contexts: ListOf::new(alloc),
        accepts: ListOf::new(alloc),
        calling,
        called,
        reference,
        common,
        checkpoint: 0,
        window: 1,
    })
}
