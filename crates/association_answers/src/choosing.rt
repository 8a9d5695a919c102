//! How an end answers alterations (X.226 6.2.3, 6.3.3; the policy is this project's own).

ghost use Rattle.std.specs.Prelude.{◌≡◌, ◌≤◌, ◌+◌, min, length, IfOk, map};
ghost use Rattle.osi_base.specs.Limits.{most_contexts};
ghost use Rattle.end_rules.specs.Sets.{count_added};
ghost use Rattle.end_rules.specs.Altering.{used};
ghost use Rattle.end_rules.specs.Policy.{answer_to_deletion, policy};
ghost use Rattle.association_calls.specs.association_state.Seen.{base_in, seen};

use association_calls::association_state_layer::{Basis, Body};
use association_calls::contexts_in_use;
use association_ground::is_among;
use association_sends::set_rules_layer::answers_to_additions;
use association_sets::{Alteration, count_added, is_fixed};
use osi_base::{Answers, NoMemory, Octets, pair_of};
use std::alloc::Global;

/// The answer to one deletion: rejected by the user where the context is in use or fixed.
fn answer_to_deletion(body: &Body, in_use: &[u32], id: u32) -> u8
    requires { in_use.now ≡ used (seen body.now) }
    ensures { result ≡ answer_to_deletion (seen body.now) id }
{
    if is_among(id, in_use) || is_fixed(pair_of(body.sets.held.as_slice(), id)) {
        1
    } else {
        0
    }
}

/// The answers to deletions.
fn answers_to_deletions(
    alloc: Global,
    body: &Body,
    in_use: &[u32],
    delete: &[u32],
) -> Result<Octets, NoMemory>
    requires { in_use.now ≡ used (seen body.now) }
    ensures { IfOk result (λ answers. answers ≡ map (answer_to_deletion (seen body.now))
        delete.now) }
{
    let mut answers = Octets::new(alloc);
    for id in delete {
        answers.push(answer_to_deletion(body, in_use, *id))?;
    }
    Ok(answers)
}

/// How many contexts are there or asked for, counted up to 64.
fn contexts_counted(body: &Body) -> usize
    ensures count { result ≡ min most_contexts (length (seen body.now).sets.held + count_added
        (seen body.now).sets.own) }
    ensures few { result ≤ most_contexts }
{
    let held = body.sets.held.len().min(64);
    let own = count_added(&body.sets.own);
    (held + own).min(64)
}

/// The answers to a peer's alteration; the own additions that aren't answered count too.
#[tactic(auto, using(crate::proofs::Counted::capped))]
pub fn alteration_answers(
    basis: &Basis<'_>,
    body: &Body,
    asked: &Alteration,
) -> Result<Answers, NoMemory>
    ensures { IfOk result (λ answers. answers ≡ policy (base_in basis.now) (seen body.now)
        asked.now) }
{
    let count = contexts_counted(body);
    let added = answers_to_additions(
        basis.alloc,
        basis.tables,
        &basis.config,
        false,
        count,
        asked.add().as_slice(),
    )?;
    let in_use = contexts_in_use(basis.alloc, body)?;
    let deleted = answers_to_deletions(
        basis.alloc,
        body,
        in_use.as_slice(),
        asked.delete().as_slice(),
    )?;
    Ok(Answers { added, deleted })
}
