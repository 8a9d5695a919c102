//! Writes session units in their one spelling.

ghost use Rattle.std.specs.Prelude.{◌≡◌, ◌++◌, ◌∷◌, [], List, OnOk, IfOk, Option};
ghost use Rattle.std.specs.Option.{option_map};
ghost use Rattle.osi_base.specs.declared.session_word.SessionWord.TheVariants as words;
ghost use Rattle.spdu_codec.specs.Written.{coded, spelled, optional, group, octet, pair, numeral, mark_numeral, connect_data, identifier_items, connect_items, accept_items, reason_value, connection_parameters, transfer_parameters, parameters_written, code_written, information_written, unit_written, units_written, AreWritable};

use crate::spelling::{
    push_coded, push_group, push_mark, push_number, push_octet, push_octets, push_pair,
    push_some_number,
};
use osi_base::{NoMemory, Octets, SessionConnect, SessionWord, Spdus};
use std::alloc::Global;

#[tactic(auto, using(crate::proofs::SpellingLaws::pieces))]
fn push_identifier(alloc: Global, out: &mut Octets, c: &SessionConnect) -> Result<(), NoMemory>
    ensures { OnOk result (out.new ≡ out.old ++ spelled (group 1 (identifier_items c.now))) }
{
    let mut items = Octets::new(alloc);
    push_octets(&mut items, 10, &c.calling_reference)?;
    push_octets(&mut items, 11, &c.common_reference)?;
    push_group(out, 1, items.as_slice())
}

#[tactic(auto, using(crate::proofs::SpellingLaws::pieces))]
fn push_connect_item(alloc: Global, out: &mut Octets, c: &SessionConnect) -> Result<(), NoMemory>
    ensures { OnOk result (out.new ≡ out.old ++ spelled (group 5 (connect_items c.now))) }
{
    let mut items = Octets::new(alloc);
    push_octet(&mut items, 19, c.options)?;
    push_octet(&mut items, 22, c.version)?;
    push_some_number(alloc, &mut items, 23, c.initial)?;
    push_octet(&mut items, 26, c.token_setting)?;
    push_group(out, 5, items.as_slice())
}

#[tactic(auto, using(crate::proofs::SpellingLaws::pieces))]
fn push_connect_data(out: &mut Octets, user: &[u8]) -> Result<(), NoMemory>
    ensures { OnOk result (out.new ≡ out.old ++ spelled (connect_data user.now)) }
{
    if user.len() <= 512 {
        return push_coded(out, 193, user);
    }
    push_coded(out, 194, user)
}

#[tactic(auto, using(crate::proofs::SpellingLaws::pieces))]
fn push_connect(alloc: Global, out: &mut Octets, c: &SessionConnect) -> Result<(), NoMemory>
    ensures { OnOk result (out.new
        ≡ out.old ++ spelled (connection_parameters (words.Connect c.now))) }
{
    push_identifier(alloc, out, c)?;
    push_connect_item(alloc, out, c)?;
    push_pair(out, 20, c.requirements)?;
    push_octets(out, 51, &c.calling)?;
    push_octets(out, 52, &c.called)?;
    push_connect_data(out, c.user.as_slice())
}

#[tactic(auto, using(crate::proofs::SpellingLaws::pieces))]
fn push_accept_item(
    alloc: Global,
    out: &mut Octets,
    options: Option<u8>,
    version: Option<u8>,
    initial: Option<u32>,
) -> Result<(), NoMemory>
    ensures { OnOk result (out.new
        ≡ out.old ++ spelled (group 5 (accept_items options version initial))) }
{
    let mut items = Octets::new(alloc);
    push_octet(&mut items, 19, options)?;
    push_octet(&mut items, 22, version)?;
    push_some_number(alloc, &mut items, 23, initial)?;
    push_group(out, 5, items.as_slice())
}

#[tactic(auto, using(crate::proofs::SpellingLaws::pieces))]
fn push_reason(
    alloc: Global,
    out: &mut Octets,
    reason: Option<u8>,
    user: &Option<Octets>,
) -> Result<(), NoMemory>
    ensures { OnOk result (out.new
        ≡ out.old ++ spelled (optional 50 (option_map (reason_value user.now) reason))) }
{
    let Some(code) = reason else {
        return Ok(());
    };
    let mut value = Octets::new(alloc);
    value.push(code)?;
    if let Some(user) = user {
        value.extend(user.as_slice())?;
    }
    push_coded(out, 50, value.as_slice())
}

#[tactic(auto, using(crate::proofs::SpellingLaws::pieces))]
fn push_resume(alloc: Global, out: &mut Octets, activity: u32, mark: u32) -> Result<(), NoMemory>
    ensures { OnOk result (out.new
        ≡ out.old ++ spelled (transfer_parameters (words.ActivityResume activity mark))) }
{
    let mut items = Octets::new(alloc);
    push_number(alloc, &mut items, 41, activity)?;
    push_mark(alloc, &mut items, 42, mark)?;
    push_coded(out, 33, items.as_slice())?;
    push_number(alloc, out, 41, activity)
}

/// The parameters of units of a connection's beginning and end, and of tokens.
#[tactic(auto, using(crate::proofs::SpellingLaws::pieces))]
fn push_connection_parameters(
    alloc: Global,
    out: &mut Octets,
    word: &SessionWord,
) -> Result<(), NoMemory>
    ensures { OnOk result (out.new ≡ out.old ++ spelled (connection_parameters word.now)) }
{
    match word {
        SessionWord::Connect(c) => push_connect(alloc, out, c),
        SessionWord::Accept {
            options,
            version,
            initial,
            requirements,
            user,
        } => {
            push_accept_item(alloc, out, *options, *version, *initial)?;
            push_pair(out, 20, *requirements)?;
            push_coded(out, 193, user.as_slice())
        }
        SessionWord::Refuse {
            transport,
            reason,
            user,
        } => {
            push_octet(out, 17, *transport)?;
            push_reason(alloc, out, *reason, user)
        }
        SessionWord::Finish { transport, user } => {
            push_octet(out, 17, *transport)?;
            push_coded(out, 193, user.as_slice())
        }
        SessionWord::Disconnect { user } => push_coded(out, 193, user.as_slice()),
        SessionWord::Abort { transport, user } => {
            push_octet(out, 17, *transport)?;
            push_octets(out, 193, user)
        }
        SessionWord::GiveTokens { tokens } => push_octet(out, 16, *tokens),
        SessionWord::PleaseTokens { tokens, user } => {
            push_octet(out, 16, *tokens)?;
            push_octets(out, 193, user)
        }
        _ => Ok(()),
    }
}

/// The parameters of units of marks, restarts and activities.
#[tactic(auto, using(crate::proofs::SpellingLaws::pieces))]
fn push_transfer_parameters(
    alloc: Global,
    out: &mut Octets,
    word: &SessionWord,
) -> Result<(), NoMemory>
    ensures { OnOk result (out.new ≡ out.old ++ spelled (transfer_parameters word.now)) }
{
    match word {
        SessionWord::Mark { number }
        | SessionWord::MarkAck { number }
        | SessionWord::ActivityEnd { number }
        | SessionWord::ActivityEndAck { number } => push_number(alloc, out, 42, *number),
        SessionWord::Resynchronize { number, user } => {
            push_octet(out, 27, Some(0))?;
            push_number(alloc, out, 42, *number)?;
            push_octets(out, 193, user)
        }
        SessionWord::ResynchronizeAck { number, user } => {
            push_number(alloc, out, 42, *number)?;
            push_octets(out, 193, user)
        }
        SessionWord::ActivityStart { activity } => push_number(alloc, out, 41, *activity),
        SessionWord::ActivityResume { activity, mark } => push_resume(alloc, out, *activity, *mark),
        SessionWord::ActivityInterrupt { reason } | SessionWord::ActivityDiscard { reason } => {
            push_octet(out, 50, *reason)
        }
        _ => Ok(()),
    }
}

fn code_written(word: &SessionWord) -> u8
    ensures { result ≡ code_written word.now }
{
    match word {
        SessionWord::Connect(_) => 13,
        SessionWord::Accept { .. } => 14,
        SessionWord::Refuse { .. } => 12,
        SessionWord::Finish { .. } => 9,
        SessionWord::Disconnect { .. } => 10,
        SessionWord::Abort { .. } => 25,
        SessionWord::AbortAccept => 26,
        SessionWord::GiveTokens { .. } => 1,
        SessionWord::PleaseTokens { .. } => 2,
        SessionWord::GiveTokensConfirm => 21,
        SessionWord::GiveTokensAck => 22,
        SessionWord::TypedData { .. } => 33,
        SessionWord::Data { .. } => 1,
        SessionWord::Mark { .. } => 49,
        SessionWord::MarkAck { .. } => 50,
        SessionWord::Resynchronize { .. } => 53,
        SessionWord::ResynchronizeAck { .. } => 34,
        SessionWord::ActivityStart { .. } => 45,
        SessionWord::ActivityResume { .. } => 29,
        SessionWord::ActivityInterrupt { .. } => 25,
        SessionWord::ActivityInterruptAck => 26,
        SessionWord::ActivityDiscard { .. } => 57,
        SessionWord::ActivityDiscardAck => 58,
        SessionWord::ActivityEnd { .. } => 41,
        SessionWord::ActivityEndAck { .. } => 42,
    }
}

fn push_information(out: &mut Octets, word: &SessionWord) -> Result<(), NoMemory>
    ensures { OnOk result (out.new ≡ out.old ++ information_written word.now) }
{
    match word {
        SessionWord::TypedData { user } | SessionWord::Data { user } => {
            out.extend(user.as_slice())
        }
        _ => Ok(()),
    }
}

#[tactic(auto, using(crate::proofs::SpellingLaws::pieces))]
fn push_unit(alloc: Global, out: &mut Octets, word: &SessionWord) -> Result<(), NoMemory>
    ensures { OnOk result (out.new ≡ out.old ++ unit_written word.now) }
{
    let mut parameters = Octets::new(alloc);
    push_connection_parameters(alloc, &mut parameters, word)?;
    push_transfer_parameters(alloc, &mut parameters, word)?;
    push_coded(out, code_written(word), parameters.as_slice())?;
    push_information(out, word)
}

/// The octets of session units as `write_spdus` writes them, also where they may not stand so or a
/// field isn't one that is read. `NoMemory` where memory runs out.
pub fn units_written(alloc: Global, spdus: &Spdus) -> Result<Octets, NoMemory>
    ensures { IfOk result (λ octets. octets ≡ units_written spdus.now) }
{
    let mut out = Octets::new(alloc);
    for word in spdus.as_slice() {
        push_unit(alloc, &mut out, word)?;
    }
    Ok(out)
}

/// The octets of session units (X.225 8.2, 8.3): one that stands alone, or GT or PT and one behind
/// it. Each field is one that is read: numbers are 1 to 999,999 (the mark of a resumption 0 to
/// 999,999), user data of a CONNECT have at most 10,240 octets, those of a REFUSE, where there are
/// any, stand behind the code 2 and aren't empty, and the parameters of a unit have fewer than
/// 65,536. `NoMemory` where memory runs out.
pub fn write_spdus(alloc: Global, spdus: &Spdus) -> Result<Octets, NoMemory>
    requires { AreWritable spdus.now }
    ensures { IfOk result (λ octets. octets ≡ units_written spdus.now) }
{
    units_written(alloc, spdus)
}
