//! What one octet makes of a scanner.

ghost use Rattle.std.specs.Prelude.{◌≡◌, ◌<◌, ◌≤◌, ◌^◌, ◌+◌, nat_lt};
ghost use Rattle.osi_base.specs.Limits.{most_octets, past_places, most_levels};
ghost use Rattle.asn1_types.specs.Tags.{capped};
ghost use Rattle.stream_front.specs.Resuming.{IsSoundStage};
ghost use Rattle.stream_front.specs.Steps as steps;

use crate::scanner::{ScanStage, Scanner};
use asn1_types::is_no_tag;
use ber_spelling::class_of;

/// How many octets a value has at most.
const MOST: u64 = 262_144;

/// How many indefinite lengths may be open.
const LEVELS: u32 = 32;

/// In the same field.
fn on(scanner: Scanner, stage: ScanStage) -> Scanner
    requires seen { scanner.seen < past_places }
    ensures { result ≡ steps.on scanner stage }
{
    Scanner {
        seen: scanner.seen + 1,
        field: scanner.field,
        depth: scanner.depth,
        stage,
    }
}

/// The field at this place breaks the rules.
fn faulty_at(scanner: Scanner, place: usize) -> Scanner
    requires seen { scanner.seen < past_places }
    ensures { result ≡ steps.faulty_at scanner place }
{
    on(scanner, ScanStage::Faulty { place })
}

/// Behind a field, inside so many indefinite lengths.
fn at_field(scanner: Scanner, depth: u32, stage: ScanStage) -> Scanner
    requires seen { scanner.seen < past_places }
    ensures { result ≡ steps.at_field scanner depth stage }
{
    Scanner {
        seen: scanner.seen + 1,
        field: scanner.seen + 1,
        depth,
        stage,
    }
}

/// In a field that begins with this octet.
fn in_field(scanner: Scanner, stage: ScanStage) -> Scanner
    requires seen { scanner.seen < past_places }
    ensures { result ≡ steps.in_field scanner stage }
{
    Scanner {
        seen: scanner.seen + 1,
        field: scanner.seen,
        depth: scanner.depth,
        stage,
    }
}

/// Whether the next octet lies past the limit.
fn is_past(scanner: Scanner) -> bool
    requires seen { scanner.seen < past_places }
    ensures { result ≡ nat_lt most_octets (scanner.seen + 1) }
{
    MOST < scanner.seen as u64 + 1
}

/// Behind a whole value or an end-of-contents.
fn behind(scanner: Scanner, depth: u32) -> Scanner
    requires seen { scanner.seen < past_places }
    ensures { result ≡ steps.behind scanner depth }
{
    let stage = if depth == 0 {
        ScanStage::Whole
    } else {
        ScanStage::Next
    };
    at_field(scanner, depth, stage)
}

/// A length of so many octets of contents, which end within the limit.
fn announced(scanner: Scanner, field: usize, count: u64) -> Scanner
    requires seen { scanner.seen < past_places }
    requires count { count < 2 ^ 41 }
    ensures { result ≡ steps.announced scanner field count }
{
    if MOST < scanner.seen as u64 + 1 + count {
        return faulty_at(scanner, field);
    }
    if count == 0 {
        return behind(scanner, scanner.depth);
    }
    at_field(scanner, scanner.depth, ScanStage::Contents { left: count })
}

/// A value begins.
fn begun(scanner: Scanner, octet: u8) -> Scanner
    requires seen { scanner.seen < past_places }
    ensures { result ≡ steps.begun scanner octet }
{
    let constructed = octet / 32 % 2 == 1;
    if octet % 32 == 31 {
        return in_field(scanner, ScanStage::High { constructed });
    }
    if is_no_tag(class_of(octet), (octet % 32) as u64) {
        return faulty_at(scanner, scanner.seen);
    }
    at_field(scanner, scanner.depth, ScanStage::Length { constructed })
}

/// The first octet of a value or an end-of-contents.
fn first_octet(scanner: Scanner, octet: u8) -> Scanner
    requires seen { scanner.seen < past_places }
    ensures { result ≡ steps.first_octet scanner octet }
{
    let ends = octet == 0 && scanner.depth > 0;
    if (!ends && LEVELS <= scanner.depth) || is_past(scanner) {
        return faulty_at(scanner, scanner.seen);
    }
    if ends {
        in_field(scanner, ScanStage::Zero)
    } else {
        begun(scanner, octet)
    }
}

/// The second octet of an end-of-contents.
fn second_zero(scanner: Scanner, octet: u8) -> Scanner
    requires seen { scanner.seen < past_places }
    ensures { result ≡ steps.second_zero scanner octet }
{
    if octet != 0 || is_past(scanner) {
        return faulty_at(scanner, scanner.field);
    }
    behind(scanner, scanner.depth.saturating_sub(1))
}

/// A digit of a tag number.
fn digit(scanner: Scanner, constructed: bool, padded: bool, number: u64, octet: u8) -> Scanner
    requires seen { scanner.seen < past_places }
    requires number { number ≤ 2 ^ 32 }
    ensures { result ≡ steps.digit scanner constructed padded number octet }
{
    if is_past(scanner) {
        return faulty_at(scanner, scanner.field);
    }
    let low = if octet < 128 { octet } else { octet - 128 };
    let number = (128 * number + low as u64).min(0x1_0000_0000);
    if octet >= 128 {
        let stage = ScanStage::Digits {
            constructed,
            padded,
            number,
        };
        return on(scanner, stage);
    }
    if number < 31 || padded {
        return faulty_at(scanner, scanner.field);
    }
    at_field(scanner, scanner.depth, ScanStage::Length { constructed })
}

/// The first octet of a length.
fn length_octet(scanner: Scanner, constructed: bool, octet: u8) -> Scanner
    requires seen { scanner.seen < past_places }
    requires depth { scanner.depth < most_levels }
    ensures { result ≡ steps.length_octet scanner constructed octet }
{
    if is_past(scanner) {
        return faulty_at(scanner, scanner.seen);
    }
    match octet {
        0..=127 => announced(scanner, scanner.seen, octet as u64),
        128 if constructed => at_field(scanner, scanner.depth + 1, ScanStage::Next),
        128 | 255 => faulty_at(scanner, scanner.seen),
        _ => {
            let size = octet - 128;
            let stage = ScanStage::Size {
                size,
                left: size,
                number: 0,
            };
            in_field(scanner, stage)
        }
    }
}

/// A further octet of a length.
fn size_octet(scanner: Scanner, size: u8, left: u8, number: u64, octet: u8) -> Scanner
    requires seen { scanner.seen < past_places }
    requires left { 0 < left }
    requires number { number ≤ 2 ^ 32 }
    ensures { result ≡ steps.size_octet scanner size left number octet }
{
    if is_past(scanner) {
        return faulty_at(scanner, scanner.field);
    }
    let number = 256 * number + octet as u64;
    if left > 1 {
        let stage = ScanStage::Size {
            size,
            left: left - 1,
            number: number.min(0x1_0000_0000),
        };
        return on(scanner, stage);
    }
    if size > 8 {
        return faulty_at(scanner, scanner.field);
    }
    announced(scanner, scanner.field, number)
}

/// An octet of contents.
fn content(scanner: Scanner, left: u64) -> Scanner
    requires seen { scanner.seen < past_places }
    requires left { 0 < left }
    ensures { result ≡ steps.content scanner left }
{
    if left == 1 {
        behind(scanner, scanner.depth)
    } else {
        on(scanner, ScanStage::Contents { left: left - 1 })
    }
}

/// What one octet makes of a scanner.
#[tactic(auto, unfolding(crate::specs::Steps::step))]
pub(crate) fn step(scanner: Scanner, octet: u8) -> Scanner
    requires seen { scanner.seen < past_places }
    requires sound { IsSoundStage scanner.stage scanner.seen scanner.depth }
    ensures { result ≡ steps.step scanner octet }
{
    match scanner.stage {
        ScanStage::Next => first_octet(scanner, octet),
        ScanStage::Zero => second_zero(scanner, octet),
        ScanStage::High { constructed } => digit(scanner, constructed, octet == 128, 0, octet),
        ScanStage::Digits {
            constructed,
            padded,
            number,
        } => digit(scanner, constructed, padded, number, octet),
        ScanStage::Length { constructed } => length_octet(scanner, constructed, octet),
        ScanStage::Size { size, left, number } => size_octet(scanner, size, left, number, octet),
        ScanStage::Contents { left } => content(scanner, left),
        ScanStage::Whole | ScanStage::Faulty { .. } => scanner,
    }
}
