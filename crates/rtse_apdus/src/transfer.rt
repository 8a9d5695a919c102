//! The octets of a transfer: one presentation data value with its context.

ghost use Rattle.std.specs.Prelude.{◌≡◌, Some, IfOk, slice_get};
ghost use Rattle.asn1_types.specs.declared.row.TypeRow.TheVariants as row;
ghost use Rattle.fixed_tables.specs.Whole.{GivesWhole};
ghost use Rattle.rtse_apdus.specs.TransferRows.{transfer_rows};
ghost use Rattle.rtse_apdus.specs.Transfer.{transfer_at, written_transfer};

use asn1_types::{Class, Parts, TypeId, TypeRow, TypeTable};
use ber_writing::ber_octets;
use fixed_tables::{PduFault, parts, pdv_in, pdv_value, table_of, tagged, whole};
use osi_base::{NoMemory, Octets, Pdv};
use std::alloc::Global;
use std::marker::Model;

/// The row of a value with its context.
const TRANSFER: TypeId = TypeId(9);

/// How many octets a transfer may have.
const MOST: u32 = 262_400;

/// The fixed table of the octets of a transfer (X.226 8.4.2).
#[derive(Drop)]
pub struct TransferTable {
    types: TypeTable,
}

impl Model for TransferTable {
    ghost use Rattle.std.specs.Prelude.{◌≡◌};
    ghost use Rattle.rtse_apdus.specs.TransferRows.{transfer_rows};

    ghost Value = { Unit {0} };

    ghost view = { λ table. tt };

    ghost invariant = { λ table. table.types ≡ transfer_rows };
}

/// The forms of a value.
fn form_parts(alloc: Global) -> Result<Parts, NoMemory>
    ensures { IfOk result (λ parts. slice_get transfer_rows 8 ≡ Some (row.Choice parts)) }
{
    parts(
        alloc,
        &[
            ("single", 5, false),
            ("aligned", 6, false),
            ("arbitrary", 7, false),
        ],
    )
}

/// A value with its context.
fn value_parts(alloc: Global) -> Result<Parts, NoMemory>
    ensures { IfOk result (λ parts. slice_get transfer_rows 9 ≡ Some (row.Sequence parts)) }
{
    parts(
        alloc,
        &[
            ("transfer", 1, true),
            ("identifier", 0, false),
            ("values", 8, false),
        ],
    )
}

/// All rows.
fn rows(alloc: Global) -> Result<Vec<TypeRow>, NoMemory>
    ensures { IfOk result (λ rows. rows.items ≡ transfer_rows) }
{
    let forms = form_parts(alloc)?;
    let value = value_parts(alloc)?;
    Ok(vec![in alloc;
        TypeRow::Integer {
            low: 1,
            high: 32_767
        },
        TypeRow::ObjectId,
        TypeRow::OctetString { most: u32::MAX },
        TypeRow::BitString,
        TypeRow::Any,
        tagged(Class::Context, 0, true, 4),
        tagged(Class::Context, 1, false, 2),
        tagged(Class::Context, 2, false, 3),
        TypeRow::Choice(forms),
        TypeRow::Sequence(value),
    ]?)
}

impl TransferTable {
    /// The fixed table, which only want of memory can refuse.
    #[tactic(auto, using(crate::proofs::TransferLaws::transfer_rows_added))]
    pub fn new(alloc: Global) -> Result<TransferTable, NoMemory> {
        Ok(TransferTable {
            types: table_of(alloc, rows(alloc)?)?,
        })
    }

    /// The one presentation data value with its context that all of these octets spell in BER
    /// (X.226
    /// 8.4.2), or the first field that breaks the grammar. A transfer has at most 262,400 octets.
    pub fn read(&self, alloc: Global, bytes: &[u8]) -> Result<Pdv, PduFault>
        ensures { GivesWhole result (transfer_at bytes.now) }
    {
        let value = whole(alloc, &self.types, TRANSFER, bytes, MOST)?;
        Ok(pdv_in(alloc, &value)?)
    }

    /// The octets of a transfer of this value, in their one spelling.
    pub fn write(&self, alloc: Global, pdv: &Pdv) -> Result<Octets, NoMemory>
        ensures { IfOk result (λ octets. octets ≡ written_transfer pdv.now) }
    {
        let value = pdv_value(alloc, pdv)?;
        ber_octets(alloc, &self.types, TRANSFER, &value)
    }
}

/// As `TransferTable::read`, with a table of its own.
pub fn read_transfer(alloc: Global, bytes: &[u8]) -> Result<Pdv, PduFault>
    ensures { GivesWhole result (transfer_at bytes.now) }
{
    TransferTable::new(alloc)?.read(alloc, bytes)
}

/// As `TransferTable::write`, with a table of its own.
pub fn write_transfer(alloc: Global, pdv: &Pdv) -> Result<Octets, NoMemory>
    ensures { IfOk result (λ octets. octets ≡ written_transfer pdv.now) }
{
    TransferTable::new(alloc)?.write(alloc, pdv)
}
