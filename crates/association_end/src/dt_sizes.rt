//! How many octets a DT has at most (X.224 13.3.4, RFC 1006 5).

ghost use Rattle.std.specs.Prelude.{◌≡◌, ◌≤◌, ◌^◌};
ghost use Rattle.osi_base.specs.Limits.{IsUnitSize, unit_least, named_most};
ghost use Rattle.end_rules.specs.TakesTransport.{is_size, octets_of_size};
ghost use Rattle.association_line.specs.Line as line;
ghost use Rattle.association_meaning.specs.association_intake.Seen.{seen_front};
ghost use Rattle.association_end.specs.OneMessage.{size_of_front};

use association_meaning::association_intake_layer::Front;
use association_words::TransportUnit;

/// How many octets a DT has at most where no size is named.
pub(crate) fn first_size(initiator: bool) -> u32
    ensures is { result ≡ line.first_size initiator }
    ensures sized { IsUnitSize result }
{
    if initiator { 128 } else { 65_531 }
}

/// How many octets a size with this code has.
fn octets_of(code: u8) -> u32
    requires least { 7 ≤ code }
    requires most { code ≤ 13 }
    ensures is { result ≡ 2 ^ code }
    ensures least { unit_least ≤ result }
    ensures most { result ≤ named_most }
{
    if code == 7 {
        return 128;
    }
    if code == 8 {
        return 256;
    }
    if code == 9 {
        return 512;
    }
    if code == 10 {
        return 1_024;
    }
    if code == 11 {
        return 2_048;
    }
    if code == 12 { 4_096 } else { 8_192 }
}

/// The size that the code names, where it is one; else this one.
fn size_named(first: u32, before: u32, code: Option<u8>) -> u32
    requires first_sized { IsUnitSize first }
    requires sized { IsUnitSize before }
    ensures is { result ≡ line.size_named first before code }
    ensures sized { IsUnitSize result }
{
    match code {
        None => first,
        Some(code) => {
            if 7 <= code && code <= 13 {
                octets_of(code)
            } else {
                before
            }
        }
    }
}

/// The size once what stands first is taken.
pub(crate) fn size_with(first: u32, before: u32, front: &Front) -> u32
    requires first_sized { IsUnitSize first }
    requires sized { IsUnitSize before }
    ensures is { result ≡ size_of_front first before (seen_front front.now) }
    ensures sized { IsUnitSize result }
{
    match front {
        Front::OfTransport(TransportUnit::ConnectionRequest { size, .. }) => {
            size_named(first, before, *size)
        }
        Front::OfTransport(TransportUnit::ConnectionConfirm { size, .. }) => {
            size_named(first, before, *size)
        }
        _ => before,
    }
}
