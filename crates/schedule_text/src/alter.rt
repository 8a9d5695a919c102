//! Alterations of the set of contexts, as fields.

ghost use Rattle.std.specs.Prelude.{◌≡◌, ◌-◌, [], length, codes};
ghost use Rattle.script_lines.specs.Reading.{Gives};
ghost use Rattle.schedule_text.specs.Alterations.{abstract_at, addition_at, more_additions, additions_at, more_numbers, numbers_at, deletions_at, alter_at};

use dialogue::Call;
use osi_base::{Copied, Ids, ListOf, Oid, Proposal, Proposals};
use script_lines::{
    EndsBefore, ScriptKind, ScriptLineFault, after_field, at_line_end, is_next, is_over,
    number_field, object_identifier, syntaxes,
};
use std::alloc::Global;
use stub_tables::Tables;

/// The abstract syntax of an addition: the one behind the word `as`, or the module's.
fn abstract_name<'a>(
    alloc: Global,
    tables: &Tables,
    text: &'a [u8],
) -> Result<(Oid, &'a [u8]), ScriptLineFault>
    ensures { Gives (λ x. (x.0, x.1.now)) result (abstract_at tables.now text.now) }
{
    if is_next("as", text) {
        object_identifier(alloc, after_field(text), ScriptKind::BadField)
    } else {
        Ok((tables.name_oid.copy(alloc)?, text))
    }
}

/// What follows the word `add`.
#[tactic(auto, unfolding(crate::specs::Alterations::addition_at))]
fn addition<'a>(
    alloc: Global,
    tables: &Tables,
    text: &'a [u8],
) -> Result<(Proposal, &'a [u8]), ScriptLineFault>
    ensures { Gives (λ x. (x.0, x.1.now)) result (addition_at tables.now text.now) }
{
    let (id, rest) = number_field(text)?;
    let (abstract_name, rest) = abstract_name(alloc, tables, rest)?;
    let (transfers, rest) = syntaxes(alloc, EndsBefore::AddOrDelete, rest)?;
    Ok((
        Proposal {
            id,
            abstract_name,
            transfers,
        },
        rest,
    ))
}

/// The additions, each behind the word `add`.
#[tactic(auto, using(crate::proofs::Turns::additions_end, crate::proofs::Turns::additions_more, crate::proofs::Turns::additions_bad, crate::proofs::Turns::additions_over))]
fn additions<'a>(
    alloc: Global,
    tables: &Tables,
    text: &'a [u8],
) -> Result<(Proposals, &'a [u8]), ScriptLineFault>
    ensures { Gives (λ x. (x.0, x.1.now)) result (additions_at tables.now text.now) }
{
    let mut proposals = ListOf::new(alloc);
    let mut rest = text;
    for _turn in 0..text.len() {
        if !is_next("add", rest) {
            return Ok((proposals, rest));
        }
        let (proposal, after) = addition(alloc, tables, after_field(rest))?;
        proposals.push(proposal)?;
        rest = after;
    }
    Ok((proposals, rest))
}

/// The numbers up to the end of the line.
#[tactic(auto, using(crate::proofs::Turns::numbers_end, crate::proofs::Turns::numbers_more, crate::proofs::Turns::numbers_bad, crate::proofs::Turns::numbers_over))]
fn more_numbers(alloc: Global, text: &[u8]) -> Result<(Ids, &[u8]), ScriptLineFault>
    ensures { Gives (λ x. (x.0, x.1.now)) result (more_numbers (length text.now) [] text.now) }
{
    let mut numbers = ListOf::new(alloc);
    let mut rest = text;
    for _turn in 0..text.len() {
        if is_over(rest) {
            return Ok((numbers, rest));
        }
        let (id, after) = number_field(rest)?;
        numbers.push(id)?;
        rest = after;
    }
    Ok((numbers, rest))
}

/// The numbers up to the end of the line, one at least.
fn numbers(alloc: Global, text: &[u8]) -> Result<(Ids, &[u8]), ScriptLineFault>
    ensures { Gives (λ x. (x.0, x.1.now)) result (numbers_at text.now) }
{
    if is_over(text) {
        return Err(ScriptLineFault::Kind(ScriptKind::BadField));
    }
    more_numbers(alloc, text)
}

/// The deletions, behind the word `delete`, if it stands next.
fn deletions(alloc: Global, text: &[u8]) -> Result<(Ids, &[u8]), ScriptLineFault>
    ensures { Gives (λ x. (x.0, x.1.now)) result (deletions_at text.now) }
{
    if is_next("delete", text) {
        numbers(alloc, after_field(text))
    } else {
        Ok((ListOf::new(alloc), text))
    }
}

/// What follows the word `alter`.
#[tactic(auto, unfolding(crate::specs::Alterations::alter_at))]
pub(crate) fn alter(alloc: Global, tables: &Tables, text: &[u8]) -> Result<Call, ScriptLineFault>
    ensures { Gives (λ x. x) result (alter_at tables.now text.now) }
{
    let (add, rest) = additions(alloc, tables, text)?;
    let (delete, rest) = deletions(alloc, rest)?;
    at_line_end(Call::Alter { add, delete }, rest)
}
