//! Fixed tables of types, row by row.

ghost use Rattle.std.specs.Prelude.{◌≡◌, ◌++◌, ◌∷◌, [], map, None, true, IfOk, OnOk};
ghost use Rattle.asn1_types.specs.Table.{refusal};
ghost use Rattle.asn1_types.specs.declared.row.TypeRow.TheVariants.{Tagged};
ghost use Rattle.asn1_types.specs.FixedRows.{part, implicit, explicit as around};
ghost use Rattle.fixed_tables.specs.Rows.{all_added};

use asn1_types::{Class, Part, Parts, RowRefusal, TypeId, TypeRow, TypeTable};
use osi_base::{ListOf, Name, NoMemory};
use std::alloc::Global;

/// A part of this name, whose type is this row.
fn part(alloc: Global, name: &str, row: u32, optional: bool) -> Result<Part, NoMemory>
    ensures { IfOk result (λ p. p ≡ part name.now row optional) }
{
    Ok(Part {
        name: Name::from_str(alloc, name)?,
        inner: TypeId(row),
        optional,
        default: None,
    })
}

/// The parts that are told, each by its name, the row of its type, and whether it may be absent.
pub fn parts(alloc: Global, told: &[(&str, u32, bool)]) -> Result<Parts, NoMemory>
    ensures { IfOk result (λ parts. parts ≡ map (λ t. part t.0.now t.1 t.2) told.now) }
{
    let mut parts = Vec::new(alloc);
    for (name, row, optional) in told {
        parts.push(part(alloc, name, *row, *optional)?)?;
    }
    Ok(ListOf::from_vec(parts))
}

/// A tag around a row, or in the place of its own.
pub fn tagged(class: Class, number: u32, explicit: bool, inner: u32) -> TypeRow
    ensures { result ≡ Tagged class number explicit (record { 0 = inner }) }
{
    TypeRow::Tagged {
        class,
        number,
        explicit,
        inner: TypeId(inner),
    }
}

/// A context tag in the place of a row's own.
pub fn implicit(number: u32, inner: u32) -> TypeRow
    ensures { result ≡ implicit number inner }
{
    tagged(Class::Context, number, false, inner)
}

/// A context tag around a row.
pub fn explicit(number: u32, inner: u32) -> TypeRow
    ensures { result ≡ around number inner }
{
    tagged(Class::Context, number, true, inner)
}

/// These rows and those behind them.
pub fn joined_rows(rows: Vec<TypeRow>, more: Vec<TypeRow>) -> Result<Vec<TypeRow>, NoMemory>
    ensures { IfOk result (λ all. all.items ≡ rows.items ++ more.items) }
{
    let mut all = rows;
    let mut more = more;
    all.append(&mut more)?;
    Ok(all)
}

/// Puts a row behind the others, of which it is known that it may stand there.
fn add(table: &mut TypeTable, row: TypeRow) -> Result<(), NoMemory>
    requires { refusal table.old row ≡ None }
    ensures { OnOk result (table.new ≡ table.old ++ row ∷ []) }
{
    match table.add(row) {
        Ok(_) => Ok(()),
        Err(RowRefusal::NoMemory) => Err(NoMemory),
        Err(_) => unreachable!(),
    }
}

/// The table of these rows, each of which may stand behind those before it. So only want of memory
/// can refuse it.
pub fn table_of(alloc: Global, rows: Vec<TypeRow>) -> Result<TypeTable, NoMemory>
    requires { all_added [] rows.items ≡ true }
    ensures { IfOk result (λ table. table ≡ rows.items) }
{
    let mut table = TypeTable::new(alloc);
    for row in rows {
        add(&mut table, row)?;
    }
    Ok(table)
}
