//! Indications as texts.

ghost use Rattle.std.specs.Prelude.{◌≡◌, ◌++◌, ◌∷◌, ◌<◌, ℕ, [], List, OnOk, decimal, flat_map, codes, slice_get};
ghost use Rattle.std.specs.Option.{option_copied};
ghost use Rattle.osi_base.specs.Printed.{problem_text};
ghost use Rattle.std.specs.Fmt.{signed_decimal};
ghost use Rattle.transcript_text.specs.Calls.{operation_name, linked_field};
ghost use Rattle.script_lines.specs.Invoked.{result_type};
ghost use Rattle.transcript_text.specs.Typed.{field_by, argument_type, parameter_type};
ghost use Rattle.transcript_text.specs.Indications.{id_text, answered, added_field, deleted_field, added_text, deleted_text, altered_text, own_text, cause_text, aborted_text, indication_text};

use crate::call::{put_linked, put_named, put_number_field, put_operation, put_told_error};
use crate::typed::{put_argument, put_result};
use asn1_types::Val;
use dialogue::Indication;
use osi_base::{AddAnswer, Answers, Ids, Layer, NoMemory, Problem};
use stub_tables::Tables;
use value_text::Text;

/// An identifier, or `-` where it is absent.
pub fn put_id(text: &mut Text, id: Option<i64>) -> Result<(), NoMemory>
    ensures { OnOk result (text.new ≡ text.old ++ id_text id) }
{
    match id {
        Some(id) => text.put_signed(id),
        None => text.put("-"),
    }
}

/// The problem of a reject.
pub fn put_problem(text: &mut Text, problem: Problem) -> Result<(), NoMemory>
    ensures { OnOk result (text.new ≡ text.old ++ problem_text problem) }
{
    text.put(problem.kind.word())?;
    text.put(" ")?;
    text.put_signed(problem.number)
}

/// The item at this place, counted from 0.
fn item_at<T>(items: &[T], place: usize) -> Option<&T>
    ensures { option_copied result ≡ slice_get items.entry.now place }
{
    items.get(place)
}

/// An addition with its result, where there is one.
fn put_added_field(
    text: &mut Text,
    id: u32,
    answers: &[AddAnswer],
    place: usize,
) -> Result<(), NoMemory>
    ensures { OnOk result (text.new ≡ text.old ++ answered added_field id
        (slice_get answers.now place)) }
{
    match item_at(answers, place) {
        Some(answer) => {
            text.put(" +")?;
            text.put_number(u64::from(id))?;
            text.put(" ")?;
            text.put_number(u64::from(answer.result))
        }
        None => Ok(()),
    }
}

/// A deletion with its result, where there is one.
fn put_deleted_field(text: &mut Text, id: u32, answers: &[u8], place: usize) -> Result<(), NoMemory>
    ensures { OnOk result (text.new ≡ text.old ++ answered deleted_field id
        (slice_get answers.now place)) }
{
    match item_at(answers, place) {
        Some(answer) => {
            text.put(" -")?;
            text.put_number(u64::from(id))?;
            text.put(" ")?;
            text.put_number(u64::from(*answer))
        }
        None => Ok(()),
    }
}

/// Each addition with its result.
fn put_added(text: &mut Text, ids: &[u32], answers: &[AddAnswer]) -> Result<(), NoMemory>
    ensures { OnOk result (text.new ≡ text.old ++ added_text ids.now answers.now) }
{
    for (place, id) in ids.iter().enumerate() {
        put_added_field(text, *id, answers, place)?;
    }
    Ok(())
}

/// Each deletion with its result.
fn put_deleted(text: &mut Text, ids: &[u32], answers: &[u8]) -> Result<(), NoMemory>
    ensures { OnOk result (text.new ≡ text.old ++ deleted_text ids.now answers.now) }
{
    for (place, id) in ids.iter().enumerate() {
        put_deleted_field(text, *id, answers, place)?;
    }
    Ok(())
}

/// A name, and what an alteration changed.
fn put_altered(
    text: &mut Text,
    name: &str,
    add: &Ids,
    delete: &Ids,
    answers: &Answers,
) -> Result<(), NoMemory>
    ensures { OnOk result (text.new ≡ text.old
        ++ (name.now ++ altered_text add.now delete.now answers.now)) }
{
    text.put(name)?;
    put_added(text, add.as_slice(), answers.added.as_slice())?;
    put_deleted(text, delete.as_slice(), answers.deleted.as_slice())
}

/// Whether it was this end's own.
fn own_word(own: bool) -> &'static str
    ensures { result.now ≡ own_text own }
{
    if own { "own" } else { "peer" }
}

/// A name, and why this end aborted: the layer, the place and the reason.
fn put_cause(
    text: &mut Text,
    name: &str,
    layer: Layer,
    place: u64,
    reason: u8,
) -> Result<(), NoMemory>
    ensures { OnOk result (text.new ≡ text.old ++ (name.now ++ cause_text layer place reason)) }
{
    text.put(name)?;
    text.put(layer.word())?;
    put_number_field(text, place)?;
    put_number_field(text, u64::from(reason))
}

/// An abort, with its layer, place and reason where it was this end's own.
fn put_aborted(
    text: &mut Text,
    own: bool,
    layer: Layer,
    place: u64,
    reason: u8,
) -> Result<(), NoMemory>
    ensures { OnOk result (text.new ≡ text.old ++ aborted_text own layer place reason) }
{
    if own {
        put_cause(text, "aborted own ", layer, place, reason)
    } else {
        text.put("aborted peer")
    }
}

/// An invocation of the peer.
fn put_invoked(
    text: &mut Text,
    tables: &Tables,
    id: i64,
    operation: u32,
    linked: Option<i64>,
    argument: &Option<Val>,
) -> Result<(), NoMemory>
    ensures { OnOk result (text.new ≡ text.old ++ (codes "invoked " ++ signed_decimal id
        ++ codes " " ++ operation_name tables.now operation
        ++ field_by tables.now.types (argument_type tables.now operation) argument.now
        ++ linked_field linked)) }
{
    text.put("invoked ")?;
    text.put_signed(id)?;
    text.put(" ")?;
    put_operation(text, tables, operation)?;
    put_argument(text, tables, operation, argument)?;
    put_linked(text, linked)
}

/// A result of an invocation of this end, which named these operations.
fn put_returned(
    text: &mut Text,
    tables: &Tables,
    own: &[u32],
    id: i64,
    value: &Option<Val>,
) -> Result<(), NoMemory>
    ensures { OnOk result (text.new ≡ text.old ++ (codes "result " ++ signed_decimal id
        ++ field_by tables.now.types (result_type tables.now own.now id) value.now)) }
{
    text.put("result ")?;
    text.put_signed(id)?;
    put_result(text, tables, own, id, value)
}

/// A reject behind the name of what became of it, with its invocation and its problem.
fn put_reject(
    text: &mut Text,
    name: &str,
    id: Option<i64>,
    problem: Problem,
) -> Result<(), NoMemory>
    ensures { OnOk result (text.new ≡ text.old ++ (name.now ++ id_text id ++ codes " "
        ++ problem_text problem)) }
{
    text.put(name)?;
    put_id(text, id)?;
    text.put(" ")?;
    put_problem(text, problem)
}

/// An invocation that was cut off.
fn put_cut(text: &mut Text, own: bool, id: i64) -> Result<(), NoMemory>
    ensures { OnOk result (text.new ≡ text.old ++ (codes "cut " ++ own_text own ++ codes " "
        ++ signed_decimal id)) }
{
    text.put("cut ")?;
    text.put(own_word(own))?;
    text.put(" ")?;
    text.put_signed(id)
}

/// An activity that the peer resumed, and the number of the mark from which it goes on.
fn put_resumed(text: &mut Text, number: u32, n: u32) -> Result<(), NoMemory>
    ensures { OnOk result (text.new ≡ text.old ++ (codes "resumed " ++ decimal number
        ++ codes " " ++ decimal n)) }
{
    put_named(text, "resumed ", number)?;
    put_named(text, " ", n)
}

/// An indication. Values print by their types where they fit them, else by their form; that of a
/// result by the operation of this end's own invocation, of which `own` are all that were accepted.
pub(crate) fn put_indication(
    text: &mut Text,
    tables: &Tables,
    own: &[u32],
    indication: &Indication,
) -> Result<(), NoMemory>
    ensures { OnOk result (text.new ≡ text.old ++ indication_text tables.now own.now
        indication.now) }
{
    match indication {
        Indication::Opened => text.put("opened"),
        Indication::AssociationRefused => text.put("association refused"),
        Indication::Recovered => text.put("recovered"),
        Indication::GivenUp => text.put("given up"),
        Indication::Invoked {
            id,
            operation,
            linked,
            argument,
        } => put_invoked(text, tables, *id, *operation, *linked, argument),
        Indication::Result { id, value } => put_returned(text, tables, own, *id, value),
        Indication::Error {
            id,
            error,
            parameter,
        } => put_told_error(text, tables, "error ", *id, *error, parameter),
        Indication::Rejected { id, problem } => put_reject(text, "rejected ", Some(*id), *problem),
        Indication::RejectTaken { id, problem } => put_reject(text, "reject taken ", *id, *problem),
        Indication::RejectSent { id, problem } => put_reject(text, "reject sent ", *id, *problem),
        Indication::BadReject => text.put("bad reject"),
        Indication::Cut { own: is_own, id } => put_cut(text, *is_own, *id),
        Indication::AlterTaken {
            add,
            delete,
            answers,
        } => put_altered(text, "alter taken", add, delete, answers),
        Indication::Altered {
            add,
            delete,
            answers,
        } => put_altered(text, "altered", add, delete, answers),
        Indication::AlterLost => text.put("alter lost"),
        Indication::Marked { n } => put_named(text, "mark ", *n),
        Indication::Restarted { n } => put_named(text, "restarted ", *n),
        Indication::Turn => text.put("turn"),
        Indication::Asked { priority } => put_named(text, "please ", *priority),
        Indication::Transferred { number } => put_named(text, "transferred ", *number),
        Indication::Interrupted { number } => put_named(text, "interrupted ", *number),
        Indication::Resumed { number, n } => put_resumed(text, *number, *n),
        Indication::Discarded { number } => put_named(text, "discarded ", *number),
        Indication::Released => text.put("released"),
        Indication::Aborted {
            own: is_own,
            layer,
            place,
            reason,
        } => put_aborted(text, *is_own, *layer, *place, *reason),
        Indication::RestoredListDiffers { .. } => text.put("lists differ"),
    }
}
