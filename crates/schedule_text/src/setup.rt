//! The configurations of two ends that meet, in any mode.

ghost use Rattle.schedule_text.specs.Meeting.{Meet};

use dialogue::Config;

/// The configurations of two ends that meet: a is an initiator's, b a responder's, both of one
/// mode, and no end refuses them but for want of memory.
#[derive(Debug, Drop)]
pub struct Setup {
    /// The configuration of end A, the initiator.
    pub a: Config,
    /// The configuration of end B, the responder.
    pub b: Config,
    ghost meet: { ∥ Meet a b ∥₁ },
}
