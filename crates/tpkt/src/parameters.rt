//! The parameters of a connection request or confirm (X.224 13.3.4, 13.4.4).

ghost use Rattle.std.specs.Prelude.{◌≡◌, ◌+◌, ◌≤◌, ◌<◌, length};
ghost use Rattle.osi_base.specs.Limits.{last_octet};
ghost use Rattle.tpkt.specs.Header.{Gives, GivesBy, nothing_seen, with_size, with_parameter, parameter_at, parameters_at};

use crate::header_stops::{Halt, fault, short};
use osi_base::{Kind, Octets};
use std::alloc::Global;

/// What the parameters said so far.
#[derive(Debug, Drop)]
pub(crate) struct Seen {
    pub size: Option<u8>,
    pub calling: Option<Octets>,
    pub called: Option<Octets>,
}

#[tactic(auto, unfolding(crate::specs::Header::with_size))]
fn with_size(offset: usize, seen: Seen, value: &[u8]) -> Result<Seen, Halt>
    ensures { Gives result (with_size offset seen value.now) }
{
    let [size] = value else {
        return fault(offset, Kind::Content);
    };
    if seen.size.is_some() {
        return fault(offset, Kind::Content);
    }
    Ok(Seen {
        size: Some(*size),
        calling: seen.calling,
        called: seen.called,
    })
}

#[tactic(auto, unfolding(crate::specs::Header::with_parameter))]
fn with_parameter(
    alloc: Global,
    offset: usize,
    seen: Seen,
    code: u8,
    value: &[u8],
) -> Result<Seen, Halt>
    ensures { Gives result (with_parameter offset seen code value.now) }
{
    match code {
        0xC0 => with_size(offset, seen, value),
        0xC1 => {
            if seen.calling.is_some() {
                return fault(offset, Kind::Content);
            }
            Ok(Seen {
                size: seen.size,
                calling: Some(Octets::from_slice(alloc, value)?),
                called: seen.called,
            })
        }
        0xC2 => {
            if seen.called.is_some() {
                return fault(offset, Kind::Content);
            }
            Ok(Seen {
                size: seen.size,
                calling: seen.calling,
                called: Some(Octets::from_slice(alloc, value)?),
            })
        }
        _ => Ok(seen),
    }
}

#[tactic(auto, unfolding(crate::specs::Header::parameter_at, crate::specs::Header::value_at))]
fn parameter_at(left: usize, offset: usize, octets: &[u8]) -> Result<(u8, &[u8], &[u8]), Halt>
    requires { left ≤ last_octet }
    ensures { GivesBy (λ p. (p.0, p.1.now, p.2.now)) result (parameter_at left offset octets.now) }
{
    let [code, rest @ ..] = octets else {
        return short();
    };
    if left == 1 {
        return fault(offset, Kind::Content);
    }
    let [len, rest @ ..] = rest else {
        return short();
    };
    let len = *len as usize;
    if left < len + 2 {
        return fault(offset, Kind::Content);
    }
    if rest.len() < len {
        return short();
    }
    let (value, rest) = rest.split_at(len);
    Ok((*code, value, rest))
}

/// The parameters in what is left of a header, of which the octets may not all be there.
pub(crate) fn parameters_at(alloc: Global, left: usize, octets: &[u8]) -> Result<Seen, Halt>
    requires { left ≤ last_octet }
    ensures { Gives result (parameters_at left left 11 nothing_seen octets.now) }
{
    let mut seen = Seen {
        size: None,
        calling: None,
        called: None,
    };
    let mut done = 0;
    let mut rest = octets;
    while done < left {
        let (code, value, after) = parameter_at(left - done, 11 + done, rest)?;
        seen = with_parameter(alloc, 11 + done, seen, code, value)?;
        done += value.len() + 2;
        rest = after;
    }
    Ok(seen)
}
