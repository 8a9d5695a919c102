//! Tables of types: a row is added behind those that it names, or refused.

ghost use Rattle.std.specs.Prelude.{◌≡◌, ◌<◌, ◌↔◌, ◌++◌, ◌∷◌, [], length, Some, None, slice_get, IsTrue, IfOk, IfErr, OnErr, MatchResult};
ghost use Rattle.std.specs.List.{AllByRecursion};
ghost use Rattle.asn1_types.specs.Rows.{names_of, nesting_by, nesting};
ghost use Rattle.asn1_types.specs.Table.{HasShortTag, AreSoundRows, first_from, refusal_after, refusal, IsRefused};

use crate::clash::has_clash;
use crate::defaults::has_bad_default;
use crate::nesting::{first_missing, nesting_of};
use crate::refusal::RowRefusal;
use crate::row::{TypeId, TypeRow};
use crate::row_by_itself::{is_bad_range, is_double_name};
use std::alloc::Global;
use std::marker::Model;

/// A table of types, in rows that are numbered from 0. Its rows are sound: each names only lower
/// rows, is nested at most 32 deep, tells its parts apart by their tags, has no part or item twice
/// by name, no item twice by number and no range, number of items or tag that can't be, and its
/// defaults fit their types. Contracts see the rows as a list.
#[derive(Debug, Drop)]
pub struct TypeTable {
    rows: Vec<TypeRow>,
    nestings: Vec<u32>,
}

impl Model for TypeTable {
    ghost use Rattle.std.specs.Prelude.{List, map};
    ghost use Rattle.asn1_types.specs.declared.row.TypeRow.{TypeRow};

    ghost Value = { List TypeRow };

    ghost use Rattle.asn1_types.specs.Inside.{IsKept};

    ghost view = { λ table. table.rows.items };

    ghost invariant = { λ table. IsKept table.rows.items table.nestings.items };
}

impl TypeTable {
    /// A table of no rows.
    pub fn new(alloc: Global) -> TypeTable
        ensures { result ≡ [] }
    {
        TypeTable {
            rows: Vec::new(alloc),
            nestings: Vec::new(alloc),
        }
    }

    /// How many rows there are.
    pub fn len(&self) -> usize
        ensures value { result ≡ length self.now }
        ensures sound { AreSoundRows self.now }
    {
        self.rows.len()
    }

    /// The row of this number.
    pub fn row(&self, of: TypeId) -> &TypeRow
        requires { of.0 < length self.now }
        ensures value { slice_get self.now of.0 ≡ Some result.now }
        ensures sound { AreSoundRows self.now }
    {
        &self.rows[of.0 as usize]
    }

    /// Whether there is a row of this number.
    pub fn has(&self, of: TypeId) -> bool
        ensures { IsTrue result ↔ (of.0 < length self.now) }
    {
        (of.0 as usize) < self.rows.len()
    }

    /// Puts a row behind the others, if the table then is sound. The table is unchanged after a
    /// refusal, which is the first that holds in the order of `RowRefusal`.
    pub fn add(&mut self, row: TypeRow) -> Result<TypeId, RowRefusal>
        ensures ok { IfOk result (λ id. (id.0 ≡ length self.old) ×
            (self.new ≡ self.old ++ row ∷ [])) }
        ensures err { OnErr result (self.new ≡ self.old) }
        ensures refused { MatchResult result (λ _. refusal self.old row ≡ None)
            (IsRefused (refusal self.old row)) }
    {
        match self.refusal(&row) {
            Some(refusal) => Err(refusal),
            None => self.push(row),
        }
    }

    fn push(&mut self, row: TypeRow) -> Result<TypeId, RowRefusal>
        requires { refusal self.old row ≡ None }
        ensures ok { IfOk result (λ id. (id.0 ≡ length self.old) ×
            (self.new ≡ self.old ++ row ∷ [])) }
        ensures err { OnErr result (self.new ≡ self.old) }
        ensures memory { IfErr result (λ e. e ≡ RowRefusal.NoMemory) }
    {
        let Ok(number) = u32::try_from(self.rows.len()) else {
            return Err(RowRefusal::NoMemory);
        };
        read_tag_number(&row);
        let nesting = self.nesting(&row) as u32;
        self.nestings.push(nesting)?;
        match self.rows.push(row) {
            Ok(()) => Ok(TypeId(number)),
            Err(_) => {
                self.nestings.pop();
                Err(RowRefusal::NoMemory)
            }
        }
    }

    /// Why this row isn't added.
    #[tactic(auto, unfolding(crate::specs::Table::refusal))]
    fn refusal(&self, row: &TypeRow) -> Option<RowRefusal>
        ensures { result ≡ refusal self.now row.now }
    {
        match first_missing(self.rows.len(), row) {
            Some(missing) => Some(RowRefusal::NoSuchRow(missing)),
            None => self.refusal_by_rows(row),
        }
    }

    /// Why this row, all of whose rows are there, isn't added.
    fn refusal_by_rows(&self, row: &TypeRow) -> Option<RowRefusal>
        requires { first_from (length self.now) (names_of row.now) ≡ None }
        ensures { result ≡ refusal_after None self.now row.now }
    {
        if is_bad_range(row) {
            return Some(RowRefusal::BadRange);
        }
        if is_double_name(row) {
            return Some(RowRefusal::DoubleName);
        }
        if self.nesting(row) > 32 {
            return Some(RowRefusal::TooNested);
        }
        if has_clash(self, row) {
            return Some(RowRefusal::TagsNotDistinct);
        }
        if has_bad_default(self, row) {
            return Some(RowRefusal::BadDefault);
        }
        None
    }

    /// How deep a row would nest.
    fn nesting(&self, row: &TypeRow) -> u64
        requires { AllByRecursion (λ m. m < length self.now) (names_of row.now) }
        ensures { result ≡ nesting_by (nesting self.now) row.now }
    {
        nesting_of(&self.nestings, row)
    }
}

/// Does nothing but read the number of a row's tag, which so is known to have 32 bits.
fn read_tag_number(row: &TypeRow)
    ensures { HasShortTag row.now }
{
    if let TypeRow::Tagged { number, .. } = row {
        let _number = *number;
    }
}
