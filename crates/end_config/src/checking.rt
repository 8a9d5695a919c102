//! The rows by which a configuration is refused.

ghost use Rattle.std.specs.Prelude.{◌≡◌, ◌≢◌, [], IfOk, Err, None, true};
ghost use Rattle.dialogue.specs.Config.{refused_if};
ghost use Rattle.dialogue.specs.declared.config.ConfigRefusal.TheVariants as refusals;
ghost use Rattle.end_config.specs.Refusing.{is_taken, is_bad_context, bad_context, is_too_long};
ghost use Rattle.end_config.specs.Refusing.{has_connect, early_refusal, late_refusal};
ghost use Rattle.end_config.specs.Refusing.{config_refusal};

use crate::connecting::connect_octets;
use association_ground::{is_bare, is_reliable};
use dialogue::{Config, ConfigRefusal, Mode};
use osi_base::{NoMemory, Proposal};
use std::alloc::Global;

/// The most octets of a CP.
const MOST_OCTETS: usize = 10_240;

/// Whether one of these has the identifier.
fn is_taken(id: u32, before: &[Proposal]) -> bool
    ensures { result ≡ is_taken id before.now }
{
    before.iter().any(|other| other.id == id)
}

/// Whether a context may not be proposed behind these.
fn is_bad_context(mode: Mode, before: &[Proposal], context: &Proposal) -> bool
    ensures { result ≡ is_bad_context mode before.now context.now }
{
    context.id % 2 == 0
        || context.id == 1
        || (is_reliable(mode) && context.id == 3)
        || context.id > 32_767
        || is_taken(context.id, before)
        || context.transfers.len() == 0
}

/// The first context that may not be proposed.
#[tactic(auto, using(crate::proofs::Contexts::bad_here, crate::proofs::Contexts::bad_later, crate::proofs::Contexts::bad_absent))]
fn bad_context(mode: Mode, contexts: &[Proposal]) -> Option<u32>
    ensures { result ≡ bad_context mode [] contexts.now }
{
    for (i, context) in contexts.iter().enumerate() {
        if is_bad_context(mode, &contexts[..i], context) {
            return Some(context.id);
        }
    }
    None
}

/// Whether the CP that opens an association, or the one that recovers it, is too long.
fn is_too_long(alloc: Global, config: &Config) -> Result<bool, NoMemory>
    ensures { IfOk result (λ long. long ≡ is_too_long config.now) }
{
    let opening = connect_octets(alloc, config, false)?;
    let recovery = connect_octets(alloc, config, true)?;
    Ok(opening.len() > MOST_OCTETS || recovery.len() > MOST_OCTETS)
}

/// What is refused without a look at the CP.
fn check_early(alloc: Global, config: &Config) -> Result<(), ConfigRefusal>
    ensures { result ≡ refused_if (early_refusal config.now) }
{
    if let Some(id) = bad_context(config.mode, config.contexts.as_slice()) {
        return Err(ConfigRefusal::BadContext(id));
    }
    if config.contexts.len() > 62 {
        return Err(ConfigRefusal::TooManyContexts);
    }
    dialogue::check_bare_config(alloc, config)
}

/// What is refused for the octets of the CP.
fn check_late(alloc: Global, config: &Config) -> Result<(), ConfigRefusal>
    ensures exact { (result ≢ Err refusals.NoMemory)
        → result ≡ refused_if (late_refusal config.now) }
    ensures memory { result ≡ Err refusals.NoMemory → has_connect config.now ≡ true }
{
    if !config.initiator || is_bare(config.mode) {
        return Ok(());
    }
    match is_too_long(alloc, config) {
        Ok(true) => Err(ConfigRefusal::TooLong),
        Ok(false) => Ok(()),
        Err(NoMemory) => Err(ConfigRefusal::NoMemory),
    }
}

/// Whether an end would refuse the configuration, in any mode: by the first row that holds of bad
/// contexts, more than 62 contexts, bad selectors, bad references, a bad checkpoint or window, and
/// a CP of more than 10,240 octets, for an opening or for a recovery. Only an initiator has a CP,
/// and not in bare mode. Memory is taken to write that CP alone, once all other rows passed.
pub fn check_config(alloc: Global, config: &Config) -> Result<(), ConfigRefusal>
    ensures exact { (result ≢ Err refusals.NoMemory)
        → result ≡ refused_if (config_refusal config.now) }
    ensures memory { result ≡ Err refusals.NoMemory
        → (early_refusal config.now ≡ None) × (has_connect config.now ≡ true) }
{
    check_early(alloc, config)?;
    check_late(alloc, config)
}
