//! The answers to additions (X.226 6.2.3, 6.3.3; the policy is this project's own).

ghost use Rattle.std.specs.Prelude.{◌≡◌, ◌≤◌, ◌+◌, find, IfOk, ◌<◌, ◌^◌};
ghost use Rattle.std.specs.Option.{option_copied, option_map};
ghost use Rattle.association_sets.specs.end_rules.Base.{Spellings, base_of};
ghost use Rattle.association_sets.specs.end_rules.Policy.{is_association, is_taken, takes_syntax, rejection, answer_within, answer_to_addition, counted_with, answers_to_additions};
ghost use Rattle.set_rules.specs.Plain.{plain_base};

use association_sets::association_ground_layer::{
    is_acse, is_ber, is_reliable, is_rtse, same_name,
};
use dialogue::Config;
use osi_base::{AddAnswer, AddAnswers, Copied, ListOf, NoMemory, Oid, Proposal, Syntax, is_listed};
use std::alloc::Global;
use stub_tables::Tables;

/// Whether this is an abstract syntax of the association.
fn is_association(tables: &Tables, config: &Config, name: &[u32]) -> bool
    ensures { result ≡ is_association (plain_base tables.now config.now) name.now }
{
    is_acse(name) || is_reliable(config.mode) && is_rtse(name)
}

/// Whether an abstract syntax is taken: the module's, and at an opening those of the association.
fn is_taken(tables: &Tables, config: &Config, connecting: bool, name: &[u32]) -> bool
    ensures { result ≡ is_taken (plain_base tables.now config.now) connecting name.now }
{
    same_name(name, tables.name_oid.arcs()) || connecting && is_association(tables, config, name)
}

/// Whether a transfer syntax is taken for this abstract syntax.
fn takes_syntax(
    tables: &Tables,
    config: &Config,
    connecting: bool,
    name: &[u32],
    syntax: &[u32],
) -> bool
    ensures { result ≡ takes_syntax (plain_base tables.now config.now) connecting name.now
        syntax.now }
{
    if connecting && is_association(tables, config, name) {
        return is_ber(syntax);
    }
    Syntax::from_name(syntax).is_some() && is_listed(syntax, config.accepts.as_slice())
}

/// The first transfer syntax of a proposal that is taken.
fn first_taken<'a>(
    tables: &Tables,
    config: &Config,
    connecting: bool,
    proposal: &'a Proposal,
) -> Option<&'a Oid>
    ensures { option_copied result ≡ find (takes_syntax (plain_base tables.now config.now)
        connecting proposal.now.abstract_name) proposal.now.transfers }
{
    let name = proposal.abstract_name.arcs();
    for transfer in proposal.transfers.as_slice() {
        if takes_syntax(tables, config, connecting, name, transfer.arcs()) {
            return Some(transfer);
        }
    }
    None
}

/// Rejected by the provider, for this reason.
fn rejection(reason: u8) -> AddAnswer
    ensures { result ≡ rejection reason }
{
    AddAnswer {
        result: 2,
        transfer: None,
        reason: Some(reason),
    }
}

/// Accepted with this syntax, where there is one and so many contexts leave room for one more.
fn answer_within(alloc: Global, count: usize, syntax: Option<&Oid>) -> Result<AddAnswer, NoMemory>
    ensures { IfOk result (λ answer. answer ≡ answer_within count (option_copied syntax.entry)) }
{
    let Some(syntax) = syntax else {
        return Ok(rejection(2));
    };
    if count >= 64 {
        return Ok(rejection(3));
    }
    Ok(AddAnswer {
        result: 0,
        transfer: Some(syntax.copy(alloc)?),
        reason: None,
    })
}

/// The answer to one addition, where so many contexts are there or on their way.
fn answer_to_addition(
    alloc: Global,
    tables: &Tables,
    config: &Config,
    connecting: bool,
    count: usize,
    proposal: &Proposal,
) -> Result<AddAnswer, NoMemory>
    ensures { IfOk result (λ answer. answer ≡ answer_to_addition (plain_base tables.now config.now)
        connecting count proposal.now) }
{
    if !is_taken(tables, config, connecting, proposal.abstract_name.arcs()) {
        return Ok(rejection(1));
    }
    answer_within(
        alloc,
        count,
        first_taken(tables, config, connecting, proposal),
    )
}

/// One more context where the answer accepts it.
fn counted_with(count: usize, answer: &AddAnswer) -> usize
    requires { count < 2 ^ 63 }
    ensures is { result ≡ counted_with count answer.now }
    ensures most { result ≤ count + 1 }
{
    if answer.result == 0 { count + 1 } else { count }
}

/// The answers to additions, as a plain base gives them.
pub(crate) fn plain_answers(
    alloc: Global,
    tables: &Tables,
    config: &Config,
    connecting: bool,
    count: usize,
    proposals: &[Proposal],
) -> Result<AddAnswers, NoMemory>
    requires { count < 2 ^ 32 }
    ensures { IfOk result (λ answers. answers ≡ answers_to_additions
        (plain_base tables.now config.now) connecting count proposals.now) }
{
    let mut count = count;
    let mut answers = ListOf::new(alloc);
    for proposal in proposals {
        let answer = answer_to_addition(alloc, tables, config, connecting, count, proposal)?;
        count = counted_with(count, &answer);
        answers.push(answer)?;
    }
    Ok(answers)
}

/// The answers to additions, where so many contexts are there or on their way: each is accepted
/// with the first of its transfer syntaxes that is taken, or rejected by the provider (result 2),
/// with reason 1 for an abstract syntax that isn't taken, 2 where no transfer syntax is, and 3
/// where 64 contexts are there. At an opening (`connecting`) the abstract syntaxes of the
/// association are taken too, in BER.
pub fn answers_to_additions(
    alloc: Global,
    tables: &Tables,
    config: &Config,
    connecting: bool,
    count: usize,
    proposals: &[Proposal],
) -> Result<AddAnswers, NoMemory>
    requires { count < 2 ^ 32 }
    ensures { (spellings : Spellings) →
        IfOk result (λ answers. answers ≡ answers_to_additions
        (base_of tables.now config.now spellings) connecting count proposals.now) }
{
    plain_answers(alloc, tables, config, connecting, count, proposals)
}
