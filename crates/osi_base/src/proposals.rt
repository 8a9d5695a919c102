//! What contexts are proposed with.

ghost use Rattle.std.specs.Prelude.{◌≡◌};
ghost use Rattle.std.specs.List.{list_any};
ghost use Rattle.osi_base.specs.Proposals.{has_bad_transfers};

use crate::layer_words::Proposal;

fn has_bad_transfers(proposal: &Proposal) -> bool
    ensures { result ≡ has_bad_transfers proposal.now }
{
    proposal.transfers.len() == 0 || proposal.transfers.len() > 8
}

/// Whether one of these proposals of contexts offers no transfer syntax, or more than eight (this
/// project's own limit; X.226 8.2 names the lists).
pub fn is_badly_offered(proposals: &[Proposal]) -> bool
    ensures { result ≡ list_any has_bad_transfers proposals.now }
{
    for proposal in proposals {
        if has_bad_transfers(proposal) {
            return true;
        }
    }
    false
}
