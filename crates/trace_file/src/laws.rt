//! Laws of recorded dialogues: each is the contract of a function that does nothing.

ghost use Rattle.std.specs.Prelude.{◌≡◌, ◌⊎◌, ℕ, List};
ghost use Rattle.trace_file.specs.declared.fault.RecordingKind.{RecordingKind};
ghost use Rattle.trace_file.specs.declared.reading.Recorded.{Recorded};
ghost use Rattle.trace_file.specs.Grammar.{IsRecording, IsFirstFault};

/// A file is one recorded dialogue or has a first fault, and not both.
pub fn recording_or_fault()
    ensures one { (text : List ℕ) (told others : List Recorded) → IsRecording text told
        → IsRecording text others → told ≡ others }
    ensures not_both { (text : List ℕ) (told : List Recorded) (line : ℕ) (kind : RecordingKind)
        → IsRecording text told → IsFirstFault text line kind → ⊥ }
    ensures either { (text : List ℕ) → ((told : List Recorded) × IsRecording text told)
        ⊎ ((line : ℕ) × (kind : RecordingKind) × IsFirstFault text line kind) }
{}
