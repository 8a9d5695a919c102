//! The trace of a recorded dialogue.

ghost use Rattle.std.specs.Prelude.{◌≡◌, IfOk};
ghost use Rattle.osi_commands.specs.Tracing.{script_kind, TracedBy};

use crate::answers::{Answer, done, script_refused};
use osi_base::NoMemory;
use script_lines::ScriptKind;
use std::alloc::Global;
use stub_tables::Tables;
use trace_file::{RecordingFault, RecordingKind, read_recording};
use trace_text::trace_text;

/// The kind of fault as which that of a recording is told.
fn script_kind(kind: RecordingKind) -> ScriptKind
    ensures { result ≡ script_kind kind }
{
    match kind {
        RecordingKind::BadField => ScriptKind::BadField,
        RecordingKind::TooMany => ScriptKind::TooMany,
    }
}

/// What is answered to the octets of a recording: what the dialogue says, or the first faulty line.
#[tactic(auto, using(crate::proofs::Second::traced_ok, crate::proofs::Second::traced_err))]
pub fn trace_octets(alloc: Global, tables: &Tables, octets: &[u8]) -> Result<Answer, NoMemory>
    ensures { IfOk result (TracedBy tables.now octets.now) }
{
    match read_recording(alloc, octets) {
        Ok(recording) => {
            let text = trace_text(alloc, tables, &recording)?;
            Ok(done(text))
        }
        Err(RecordingFault::At { line, kind }) => {
            let answer = script_refused(alloc, line, script_kind(kind))?;
            Ok(answer)
        }
        Err(RecordingFault::NoMemory) => Err(NoMemory),
    }
}
