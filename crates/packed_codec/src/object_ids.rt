//! The contents of OBJECT IDENTIFIER (X.690 8.19).

ghost use Rattle.std.specs.Prelude.{◌≡◌, ◌≤◌, ◌-◌, ◌*◌, ◌&&◌, [], ◌∷◌, not, nat_eq, IfOk};
ghost use Rattle.std.specs.List.{list_all};
ghost use Rattle.asn1_types.specs.Fits.{has_32_bits};
ghost use Rattle.ber_spelling.specs.Primitives.{arcs_from, arcs_of};
ghost use Rattle.packed_codec.specs.ObjectIds.{judged, joined, IsNoEnd};
ghost use Rattle.std.specs.Bool.{MatchBool};

use osi_base::{NoMemory, Oid};
use std::alloc::Global;

/// The first arc, which shares a subidentifier with the second (X.690 8.19.4).
fn first_arc(number: u64) -> u64
    ensures value { arcs_from (number ∷ []) ≡ result ∷ (number - 40 * result) ∷ [] }
    ensures room { 40 * result ≤ number }
{
    if number < 40 {
        0
    } else if number < 80 {
        1
    } else {
        2
    }
}

/// Puts the arcs that the next subidentifier stands for at the end. The answer is false where they
/// are too many or one has more than 32 bits.
fn push_arcs(arcs: &mut Vec<u32>, number: u64) -> Result<bool, NoMemory>
    ensures { IfOk result (λ put. MatchBool put (arcs.new.items ≡ joined arcs.old.items number)
        (IsNoEnd (joined arcs.old.items number))) }
{
    let mut last = number;
    if arcs.is_empty() {
        let root = first_arc(number);
        arcs.push(root as u32)?;
        last = number - 40 * root;
    }
    if last > u32::MAX as u64 || arcs.len() >= 32 {
        return Ok(false);
    }
    arcs.push(last as u32)?;
    Ok(true)
}

/// Arcs have 32 bits.
fn arcs_fit(arcs: &[u32]) -> bool
    ensures { result ≡ list_all has_32_bits arcs.now }
{
    true
}

/// The object identifier of these arcs, if they are one.
fn oid_of(arcs: Vec<u32>) -> Option<Oid>
    ensures { result ≡ judged arcs.items }
{
    if !arcs_fit(&arcs) {
        return None;
    }
    Oid::from_vec(arcs)
}

/// Whether this digit would be a leading zero of a subidentifier.
fn is_leading_zero(digit: u8, begun: bool) -> bool
    ensures { result ≡ (nat_eq digit 128 && not begun) }
{
    digit == 128 && !begun
}

/// The object identifier of these contents, if they are one. Memory is taken for its arcs alone.
#[tactic(auto, unfolding(ber_spelling::specs::Primitives::arcs_of))]
pub(crate) fn arcs_of(alloc: Global, octets: &[u8]) -> Result<Option<Oid>, NoMemory>
    ensures { IfOk result (λ oid. oid ≡ arcs_of octets.now) }
{
    let mut arcs: Vec<u32> = Vec::new(alloc);
    let mut number: u64 = 0;
    let mut begun = false;
    for digit in octets {
        if is_leading_zero(*digit, begun) {
            return Ok(None);
        }
        number = (128 * number + (*digit % 128) as u64).min(0x100_0000_0000);
        begun = *digit >= 128;
        if !begun {
            if !push_arcs(&mut arcs, number)? {
                return Ok(None);
            }
            number = 0;
        }
    }
    if begun {
        return Ok(None);
    }
    Ok(oid_of(arcs))
}
