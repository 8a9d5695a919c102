//! A set after an alteration that was answered.

ghost use Rattle.std.specs.Prelude.{◌≡◌, ◌+◌, ◌≤◌, [], ◌∷◌, vec_len, vec_capacity, length};
ghost use Rattle.context_sets.specs.Alterations.{syntax_known, accepted_as, with_syntax, with_additions, without, without_deletions, altered};
ghost use Rattle.context_sets.specs.Results.{acceptances};

use crate::alteration::Alteration;
use crate::sets::put_context;
use osi_base::{AddAnswer, Answers, Pair, Proposal, Proposals, SetItem, Syntax, remove_context};

/// The transfer syntax with which an addition is accepted.
fn accepted_as(answer: &AddAnswer) -> Option<Syntax>
    ensures { result ≡ accepted_as answer.now }
{
    if answer.result != 0 {
        return None;
    }
    match &answer.transfer {
        None => None,
        Some(name) => Syntax::from_name(name.arcs()),
    }
}

/// How many additions are accepted.
pub(crate) fn acceptances(answers: &[AddAnswer]) -> usize
    ensures count { result ≡ acceptances answers.now }
    ensures within { acceptances answers.now ≤ length answers.now }
{
    let mut count = 0;
    for answer in answers {
        if accepted_as(answer).is_some() {
            count += 1;
        }
    }
    count
}

/// Puts a proposed context into a set that has room for it, if this answer accepts it.
fn put_accepted(items: &mut Vec<SetItem>, proposal: Proposal, answer: &AddAnswer)
    requires { vec_len items.old + acceptances (answer.now ∷ []) ≤ vec_capacity items.old }
    ensures items { items.new.items ≡ with_syntax proposal (accepted_as answer.now)
        items.old.items }
    ensures len { vec_len items.new ≤ vec_len items.old + acceptances (answer.now ∷ []) }
    ensures capacity { vec_capacity items.new ≡ vec_capacity items.old }
{
    if let Some(transfer) = accepted_as(answer) {
        let Proposal {
            id,
            abstract_name,
            transfers: _,
        } = proposal;
        let pair = Pair {
            abstract_name,
            transfer,
        };
        put_context(items, SetItem { id, pair });
    }
}

/// Puts the accepted additions into a set that has room for them.
pub(crate) fn put_additions(items: &mut Vec<SetItem>, added: Proposals, answers: &[AddAnswer])
    requires { vec_len items.old + acceptances answers.now ≤ vec_capacity items.old }
    ensures items { items.new.items ≡ with_additions added answers.now items.old.items }
    ensures len { vec_len items.new ≤ vec_len items.old + acceptances answers.now }
    ensures capacity { vec_capacity items.new ≡ vec_capacity items.old }
{
    let mut rest = added.into_vec().into_iter();
    for answer in answers {
        if let Some(proposal) = rest.next() {
            put_accepted(items, proposal, answer);
        }
    }
}

/// Takes a context out of a set, if this result accepts its deletion.
fn remove_accepted(items: &mut Vec<SetItem>, id: u32, result_of: u8)
    ensures items { items.new.items ≡ without id result_of items.old.items }
    ensures len { vec_len items.new ≤ vec_len items.old }
    ensures capacity { vec_capacity items.new ≡ vec_capacity items.old }
{
    if result_of == 0 {
        remove_context(items, id);
    }
}

/// Takes the accepted deletions out of a set.
fn remove_deletions(items: &mut Vec<SetItem>, ids: &[u32], results: &[u8])
    requires { length ids.now ≡ length results.now }
    ensures items { items.new.items ≡ without_deletions ids.now results.now items.old.items }
    ensures len { vec_len items.new ≤ vec_len items.old }
    ensures capacity { vec_capacity items.new ≡ vec_capacity items.old }
{
    for (place, id) in ids.iter().enumerate() {
        remove_accepted(items, *id, results[place]);
    }
}

/// Changes a set, which has room for the accepted additions, by an alteration that was answered.
pub(crate) fn settle(items: &mut Vec<SetItem>, alteration: Alteration, answers: &Answers)
    requires room { vec_len items.old + acceptances answers.now.added ≤ vec_capacity items.old }
    requires as_many { length alteration.deleted ≡ length answers.now.deleted }
    ensures items { items.new.items ≡ altered alteration answers.now items.old.items }
    ensures len { vec_len items.new ≤ vec_len items.old + acceptances answers.now.added }
    ensures capacity { vec_capacity items.new ≡ vec_capacity items.old }
{
    let Alteration { added, deleted } = alteration;
    put_additions(items, added, answers.added.as_slice());
    remove_deletions(items, deleted.as_slice(), answers.deleted.as_slice());
}
