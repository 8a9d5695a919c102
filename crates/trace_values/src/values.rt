//! What is said of values in their order.

ghost use Rattle.std.specs.Prelude.{◌≡◌, ◌∷◌, [], OnOk, MatchOption};
ghost use Rattle.trace_values.specs.Values.{ArePdvsText, IsPdvText, Puts};

use crate::content::put_content;
use apdu_codec::Heads;
use osi_base::{NoMemory, Pdv};
use std::alloc::Global;
use stub_tables::Tables;
use value_text::Text;

/// A value behind a space and its context's identifier.
fn put_pdv(
    alloc: Global,
    heads: &Heads,
    tables: &Tables,
    text: &mut Text,
    pdv: &Pdv,
) -> Result<(), NoMemory>
    ensures { OnOk result (Puts (IsPdvText tables.now pdv.now) text.old text.new) }
{
    text.put(" ")?;
    text.put_number(u64::from(pdv.id))?;
    text.put(":")?;
    put_content(alloc, heads, tables, text, &pdv.content)
}

/// The first item and those behind it; `None` where there is none.
pub fn split_first<T>(items: &[T]) -> Option<(&T, &[T])>
    ensures { MatchOption result (items.entry.now ≡ []) (λ x. items.entry.now ≡ x.0.now ∷ x.1.now) }
{
    match items {
        [] => None,
        [first, rest @ ..] => Some((first, rest)),
    }
}

/// Puts what is said of values behind a text: of each its context's identifier, and which APDU of
/// the module it is or how many octets it has. Only a value in the form `[0]` from which the head
/// of an APDU in BER is read is told so: an invocation or an error with a code that the module
/// knows, a result with such a code or with none, and a reject.
///
/// # Errors
///
/// `NoMemory`; the text may then have a part of what was to be put.
pub fn put_pdvs(
    alloc: Global,
    heads: &Heads,
    tables: &Tables,
    text: &mut Text,
    pdvs: &[Pdv],
) -> Result<(), NoMemory>
    ensures { OnOk result (Puts (ArePdvsText tables.now pdvs.now) text.old text.new) }
{
    let mut rest = pdvs;
    while let Some((pdv, more)) = split_first(rest) {
        put_pdv(alloc, heads, tables, text, pdv)?;
        rest = more;
    }
    Ok(())
}
