//! The configurations of two ends of bare mode that meet.

ghost use Rattle.std.specs.Prelude.{true, false};
ghost use Rattle.dialogue.specs.Config.{IsBare};

use crate::config::Config;

/// The configurations of two ends that meet: a is an initiator's, b a responder's, both of bare
/// mode, and no end refuses them.
#[derive(Debug, Drop)]
pub struct BareSetup {
    /// The configuration of end A, the initiator.
    pub a: Config,
    /// The configuration of end B, the responder.
    pub b: Config,
    ghost initiator: { ∥ IsBare true a ∥₁ },
    ghost responder: { ∥ IsBare false b ∥₁ },
}
