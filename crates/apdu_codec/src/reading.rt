//! Reading heads.

ghost use Rattle.std.specs.Prelude.{◌≡◌, ◌≤◌, ◌-◌, ℕ, IfOk, Ok, Err, length, true, false};
ghost use Rattle.osi_base.specs.declared.syntax.Syntax.TheVariants as syntaxes;
ghost use Rattle.osi_base.specs.Limits.{most_octets};
ghost use Rattle.apdu_spelling.specs.Rows.{head_rows};
ghost use Rattle.apdu_codec.specs.Refusals.{opens, opens_reject, number_of_kind, ber_told, packed_told, refusal_of, problem_number};
ghost use Rattle.apdu_codec.specs.HeadsRead.{IsTried, IsHeadRead, HasNone};
ghost use Rattle.apdu_codec.specs.declared.fault.HeadFault.TheVariants as faults;

use crate::fault::HeadFault;
use crate::heads::{APDU, Heads, PACKED_APDU};
use crate::packed_heads::packed_head;
use crate::pieces::{MOST_OCTETS, ber_head};
use apdu_spelling::ApduHead;
use asn1_types::TypeTable;
use ber_reading::{ReadFault, ber_read, der_read};
use osi_base::{Kind, NoMemory, Syntax};
use packed_codec::{PackedFault, packed_read};
use std::alloc::Global;

/// A head, or the number of the general problem, as long as the first octet isn't looked at.
#[derive(Drop)]
pub(crate) enum Tried {
    Head(ApduHead),
    Fault(u8),
}

/// The number of the general problem for a fault of this kind.
fn number_of_kind(kind: Kind) -> u8
    ensures { result ≡ number_of_kind kind }
{
    match kind {
        Kind::Length | Kind::Form => 2,
        Kind::Tag | Kind::Missing | Kind::Extra | Kind::Content => 1,
    }
}

/// The number of the general problem for a fault of BER or DER, unless memory was refused.
fn ber_told(fault: ReadFault) -> Option<u8>
    ensures { result ≡ ber_told fault }
{
    match fault {
        ReadFault::NotSpelled { kind, .. } => Some(number_of_kind(kind)),
        ReadFault::Short => Some(2),
        ReadFault::TooDeep { .. } => Some(2),
        ReadFault::TooLong { .. } => Some(2),
        ReadFault::NoMemory => None,
    }
}

/// The number of the general problem for a fault of the packed syntax, unless memory was refused.
fn packed_told(fault: PackedFault) -> Option<u8>
    ensures { result ≡ packed_told fault }
{
    match fault {
        PackedFault::NotSpelled { kind, .. } => Some(number_of_kind(kind)),
        PackedFault::Short => Some(2),
        PackedFault::TooLong { .. } => Some(2),
        PackedFault::NoMemory => None,
    }
}

/// As `Heads::read`, in BER.
fn try_ber(alloc: Global, rows: &TypeTable, bytes: &[u8]) -> Result<Tried, NoMemory>
    requires { rows.now ≡ head_rows }
    ensures { IfOk result (IsTried syntaxes.Ber bytes.now) }
{
    match ber_read(alloc, rows, APDU, bytes) {
        Ok(read) => {
            if read.used != bytes.len() {
                return Ok(Tried::Fault(1));
            }
            match ber_head(alloc, &read.value)? {
                Some(head) => Ok(Tried::Head(head)),
                None => Ok(Tried::Fault(1)),
            }
        }
        Err(fault) => match ber_told(fault) {
            Some(number) => Ok(Tried::Fault(number)),
            None => Err(NoMemory),
        },
    }
}

/// As `Heads::read`, in DER.
fn try_der(alloc: Global, rows: &TypeTable, bytes: &[u8]) -> Result<Tried, NoMemory>
    requires { rows.now ≡ head_rows }
    ensures { IfOk result (IsTried syntaxes.Der bytes.now) }
{
    match der_read(alloc, rows, APDU, bytes) {
        Ok(read) => {
            if read.used != bytes.len() {
                return Ok(Tried::Fault(1));
            }
            match ber_head(alloc, &read.value)? {
                Some(head) => Ok(Tried::Head(head)),
                None => Ok(Tried::Fault(1)),
            }
        }
        Err(fault) => match ber_told(fault) {
            Some(number) => Ok(Tried::Fault(number)),
            None => Err(NoMemory),
        },
    }
}

/// The head before whose value so many octets stand.
fn behind(head: ApduHead, used: usize) -> ApduHead
    ensures { result ≡ record head { room = most_octets - used } }
{
    let room = (MOST_OCTETS as usize).saturating_sub(used) as u32;
    ApduHead { room, ..head }
}

/// As `Heads::read`, in the packed syntax.
fn try_packed(alloc: Global, rows: &TypeTable, bytes: &[u8]) -> Result<Tried, NoMemory>
    requires { rows.now ≡ head_rows }
    ensures { IfOk result (IsTried syntaxes.Packed bytes.now) }
{
    match packed_read(alloc, rows, PACKED_APDU, bytes) {
        Ok(read) => match packed_head(alloc, &read.value, &bytes[read.used..])? {
            Some(head) => Ok(Tried::Head(behind(head, read.used))),
            None => Ok(Tried::Fault(1)),
        },
        Err(fault) => match packed_told(fault) {
            Some(number) => Ok(Tried::Fault(number)),
            None => Err(NoMemory),
        },
    }
}

/// Whether the octet begins an APDU.
fn opens(syntax: Syntax, first: u8) -> bool
    ensures { result ≡ opens syntax first }
{
    match syntax {
        Syntax::Ber => (0xA1..=0xA4).contains(&first),
        Syntax::Der => (0xA1..=0xA4).contains(&first),
        Syntax::Packed => (1..=4).contains(&first),
    }
}

/// Whether the octet begins a reject.
fn opens_reject(syntax: Syntax, first: u8) -> bool
    ensures { result ≡ opens_reject syntax first }
{
    match syntax {
        Syntax::Ber => first == 0xA4,
        Syntax::Der => first == 0xA4,
        Syntax::Packed => first == 4,
    }
}

/// Why octets that spell no head are refused, where the first fault has this number.
fn refusal(syntax: Syntax, bytes: &[u8], number: u8) -> HeadFault
    requires { number ≡ problem_number syntax bytes.now }
    ensures is { result ≡ refusal_of syntax bytes.now }
    ensures told { (result ≡ faults.NoMemory) → ⊥ }
{
    match bytes {
        [] => HeadFault::General(2),
        [first, ..] => {
            if !opens(syntax, *first) {
                HeadFault::General(0)
            } else if opens_reject(syntax, *first) {
                HeadFault::BadReject
            } else {
                HeadFault::General(number)
            }
        }
    }
}

impl Heads {
    fn attempt(&self, alloc: Global, syntax: Syntax, bytes: &[u8]) -> Result<Tried, NoMemory>
        ensures { IfOk result (IsTried syntax bytes.now) }
    {
        let rows = self.rows();
        match syntax {
            Syntax::Ber => try_ber(alloc, rows, bytes),
            Syntax::Der => try_der(alloc, rows, bytes),
            Syntax::Packed => try_packed(alloc, rows, bytes),
        }
    }

    /// The head of the APDU that all of these octets spell, with the octets of its value unread
    /// (X.882 9): of at most 262,144 octets. Octets that spell none are refused with the number of
    /// the general problem (X.880 9.4.2), or as a reject that is never rejected.
    pub fn read(&self, alloc: Global, syntax: Syntax, bytes: &[u8]) -> Result<ApduHead, HeadFault>
        ensures { IsHeadRead syntax bytes.now result }
    {
        match self.attempt(alloc, syntax, bytes) {
            Ok(Tried::Head(head)) => Ok(head),
            Ok(Tried::Fault(number)) => Err(refusal(syntax, bytes, number)),
            Err(NoMemory) => Err(HeadFault::NoMemory),
        }
    }
}

/// As `Heads::read`, with a table of heads made for this call.
pub fn read_apdu(alloc: Global, syntax: Syntax, bytes: &[u8]) -> Result<ApduHead, HeadFault>
    ensures { IsHeadRead syntax bytes.now result }
{
    match Heads::new(alloc) {
        Ok(heads) => heads.read(alloc, syntax, bytes),
        Err(NoMemory) => Err(HeadFault::NoMemory),
    }
}
