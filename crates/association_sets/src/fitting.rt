//! Whether answers fit what was proposed (X.226 8.2).

ghost use Rattle.std.specs.Prelude.{◌≡◌};
ghost use Rattle.association_ground.specs.end_rules.Sets.{is_offered, fits_proposal, fit_proposals, fit_alteration};

use crate::alteration::Alteration;
use osi_base::{AddAnswer, Answers, Oid, Proposal, Syntax, is_listed};

/// Whether the syntax that an answer names is one of the three, and was offered.
fn is_offered(offers: &[Oid], name: &Option<Oid>) -> bool
    ensures { result ≡ is_offered offers.now name.now }
{
    match name {
        None => false,
        Some(name) => is_listed(name.arcs(), offers) && Syntax::from_name(name.arcs()).is_some(),
    }
}

/// Whether an answer fits its proposal.
fn fits_proposal(proposal: &Proposal, answer: &AddAnswer) -> bool
    ensures { result ≡ fits_proposal proposal.now answer.now }
{
    answer.result != 0 || is_offered(proposal.transfers.as_slice(), &answer.transfer)
}

/// Whether the answers fit the proposals, one for one.
#[tactic(auto, using(crate::proofs::Fits::all_fit))]
pub fn fit_proposals(proposals: &[Proposal], answers: &[AddAnswer]) -> bool
    ensures { result ≡ fit_proposals proposals.now answers.now }
{
    for (place, proposal) in proposals.iter().enumerate() {
        if place >= answers.len() {
            return false;
        }
        if !fits_proposal(proposal, &answers[place]) {
            return false;
        }
    }
    answers.len() <= proposals.len()
}

/// Whether the answers fit an alteration.
pub fn fit_alteration(alteration: &Alteration, answers: &Answers) -> bool
    ensures { result ≡ fit_alteration alteration.now answers.now }
{
    fit_proposals(alteration.add.as_slice(), answers.added.as_slice())
        && alteration.delete.len() == answers.deleted.len()
}
