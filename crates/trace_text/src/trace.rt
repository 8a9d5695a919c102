//! The trace of a recorded dialogue.

ghost use Rattle.std.specs.Prelude.{◌≡◌, IfOk};
ghost use Rattle.trace_text.specs.Trace.{TraceTextOf};

use crate::direction::Directions;
use osi_base::{NoMemory, Octets};
use std::alloc::Global;
use stub_tables::Tables;
use trace_file::{Recorded, Recording};
use trace_units::{Viewer, split_first};
use value_text::Text;

/// What a recorded dialogue says, with the names of a module: a line for each packet that isn't
/// data and for each TSDU (what the DTs up to one that ends it carry), in the order in which they
/// were whole; a line for the first fault of each direction, behind which nothing more is said of
/// it. Linear in the octets.
///
/// # Errors
///
/// `NoMemory`.
pub fn trace_text(alloc: Global, tables: &Tables, recording: &Recording) -> Result<Octets, NoMemory>
    ensures { IfOk result (TraceTextOf tables.now recording.now) }
{
    let viewer = Viewer::new(alloc, tables)?;
    let mut directions = Directions::new(alloc);
    let mut text = Text::new(alloc);
    let mut rest = recording.as_slice();
    while let Some((recorded, more)) = split_first(rest) {
        directions.show(&viewer, recorded, &mut text)?;
        rest = more;
    }
    Ok(text.into_octets())
}
