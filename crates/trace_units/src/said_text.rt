//! What is said of a message.

ghost use Rattle.std.specs.Prelude.{◌≡◌, ◌++◌, IfOk};
ghost use Rattle.trace_units.specs.Names.{fault_text};

use osi_base::{Kind, NoMemory, Octets};
use std::alloc::Global;
use value_text::Text;

/// What is said of a message: a line, or a fault, which ends its direction.
#[derive(Debug, Drop)]
pub enum Said {
    /// A line of text.
    Line(Octets),
    /// The text of a fault, which ends the direction of the message.
    Fault(Octets),
}

/// What is said of a field that breaks the grammar of its layer, with its place counted from 0.
pub fn fault_text(alloc: Global, layer: &str, place: u64, kind: Kind) -> Result<Octets, NoMemory>
    ensures { IfOk result (λ text. text ≡ fault_text layer.now place kind) }
{
    let mut text = Text::new(alloc);
    text.put("fault ")?;
    text.put(layer)?;
    text.put(" ")?;
    text.put_number(place)?;
    text.put(" ")?;
    text.put(kind.word())?;
    Ok(text.into_octets())
}
