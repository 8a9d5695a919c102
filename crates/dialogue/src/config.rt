//! How an end is set up, and in which phase it is.

ghost use Rattle.std.specs.Prelude.{◌≡◌};
ghost use Rattle.dialogue.specs.Config.{is_bad_selector, bare_config_refusal, refused_if};

use osi_base::{Copied, NoMemory, Octets, Oids, Proposals, WordWithNumber};
use std::alloc::Global;
use std::error::Error;
use std::fmt;

/// How APDUs travel.
#[derive(Clone, Copy, Debug, PartialEq, Eq)]
pub enum Mode {
    /// Each APDU is one BER value straight on the line.
    Bare,
    /// APDUs go as presentation data.
    Direct,
    /// Each APDU is one reliable transfer.
    Reliable,
}

/// The phase of an end.
#[derive(Clone, Copy, Debug, PartialEq, Eq)]
pub enum Phase {
    /// No association was asked for yet.
    Idle,
    /// A connection for an association was asked for, and the association isn't accepted or refused
    /// yet.
    Opening,
    /// The association is open; in bare mode the connection stands.
    Up,
    /// This end asked for the release of the association.
    Releasing,
    /// The connection broke, and the association stays to be recovered.
    Broken,
    /// This end asked for a new connection that recovers the association.
    Recovering,
    /// The association has ended or couldn't begin; in bare mode the connection broke, or what came
    /// broke the rules.
    Over,
    /// An allocation was refused within a call.
    Dead,
}

/// How an end is set up.
#[derive(Debug, Drop)]
pub struct Config {
    /// Whether the end is the initiator; else it is the responder.
    pub initiator: bool,
    /// How its APDUs travel.
    pub mode: Mode,
    /// The contexts that an initiator proposes.
    pub contexts: Proposals,
    /// The transfer syntaxes that the end accepts: a responder as it answers an opening, either end
    /// as it answers an alteration. Empty in bare mode.
    pub accepts: Oids,
    /// The calling selector of the transport, of the session and of the presentation alike (X.224
    /// 13.3.4, X.225 8.3.1, X.226 8.2.1), 1 to 16 octets.
    pub calling: Octets,
    /// The called selector of the transport, of the session and of the presentation alike (X.224
    /// 13.3.4, X.225 8.3.1, X.226 8.2.1), 1 to 16 octets.
    pub called: Octets,
    /// The calling reference of the session connection, of 1 to 64 octets.
    pub reference: Octets,
    /// The common reference of the session connection, a UTCTime of 13 octets (X.225 8.3.1). Only
    /// its length is checked.
    pub common: Octets,
    /// The octets between two marks of a transfer, in units of 1,024, at most 255; 0 for no marks.
    pub checkpoint: u32,
    /// The window of a transfer, in marks, from 1 to 255.
    pub window: u32,
}

impl Copied for Config {
    fn copy(&self, alloc: Global) -> Result<Config, NoMemory> {
        Ok(Config {
            initiator: self.initiator,
            mode: self.mode,
            contexts: self.contexts.copy(alloc)?,
            accepts: self.accepts.copy(alloc)?,
            calling: self.calling.copy(alloc)?,
            called: self.called.copy(alloc)?,
            reference: self.reference.copy(alloc)?,
            common: self.common.copy(alloc)?,
            checkpoint: self.checkpoint,
            window: self.window,
        })
    }
}

/// Why an end refuses its configuration.
#[derive(Clone, Copy, Debug, PartialEq, Eq)]
pub enum ConfigRefusal {
    /// The context of this identifier may not be proposed: the identifier is even, above 32,767, 1
    /// (in reliable mode also 3) or that of one before it, or it offers no transfer syntax.
    BadContext(u32),
    /// More than 62 contexts are proposed.
    TooManyContexts,
    /// A selector doesn't have 1 to 16 octets.
    BadSelector,
    /// The reference doesn't have 1 to 64 octets, or the common one doesn't have 13.
    BadReference,
    /// The checkpoint is above 255, or the window isn't from 1 to 255.
    BadWindow,
    /// A CP that opens or recovers the association would have more than 10,240 octets.
    TooLong,
    /// An allocation was refused.
    NoMemory,
}

impl fmt::Display for ConfigRefusal {
    ghost use Rattle.std.specs.Prelude.{Some};
    ghost use Rattle.dialogue.specs.Printed.{config_refusal_text};

    ghost output = { λ refusal. Some (config_refusal_text refusal) };

    fn fmt<W: fmt::Write>(&self, f: &mut fmt::Formatter<W>) -> fmt::Result {
        match self {
            ConfigRefusal::BadContext(id) => fmt::Display::fmt(
                &WordWithNumber {
                    word: "may not be proposed: context",
                    number: Some(i64::from(*id)),
                },
                f,
            ),
            ConfigRefusal::TooManyContexts => f.write_str("more than 62 contexts are proposed"),
            ConfigRefusal::BadSelector => f.write_str("a selector does not have 1 to 16 octets"),
            ConfigRefusal::BadReference => f.write_str(
                "the reference does not have 1 to 64 octets, or the common one 13",
            ),
            ConfigRefusal::BadWindow => f.write_str(
                "the checkpoint is above 255, or the window is not from 1 to 255",
            ),
            ConfigRefusal::TooLong => f.write_str("a CP would have more than 10,240 octets"),
            ConfigRefusal::NoMemory => f.write_str("out of memory"),
        }
    }
}

impl Error for ConfigRefusal {}

fn is_bad_selector(octets: &Octets) -> bool
    ensures { result ≡ is_bad_selector octets.now }
{
    octets.len() == 0 || octets.len() > 16
}

/// Whether an end would refuse the configuration, which is one of bare mode: by the first that
/// holds of `BadSelector`, `BadReference` and `BadWindow`. Takes no memory.
pub fn check_bare_config(_alloc: Global, config: &Config) -> Result<(), ConfigRefusal>
    ensures { result ≡ refused_if (bare_config_refusal config.now) }
{
    if is_bad_selector(&config.calling) || is_bad_selector(&config.called) {
        return Err(ConfigRefusal::BadSelector);
    }
    let reference = config.reference.len();
    if reference == 0 || reference > 64 || config.common.len() != 13 {
        return Err(ConfigRefusal::BadReference);
    }
    if config.checkpoint > 255 || config.window == 0 || config.window > 255 {
        return Err(ConfigRefusal::BadWindow);
    }
    Ok(())
}
