//! What stands in values, by the kind of their types; `None` where a value is of another kind.

ghost use Rattle.std.specs.Prelude.{◌≡◌, [], ◌∷◌, ℕ, List, IfSome};
ghost use Rattle.std.specs.List.{flat_map};
ghost use Rattle.asn1_types.specs.Value.{Value, MaybeValues};
ghost use Rattle.asn1_types.specs.ValueView.{parts_of, values_of};
ghost use Rattle.asn1_types.specs.Writing.{Writer, base_128, integer_octets, subidentifiers, boolean_contents, integer_contents, octets_contents, text_contents, bits_contents, object_id_contents, any_written, values_contents, list_contents, sequence_contents, choice_written};

use asn1_types::{Node, Val};

/// The octet of a BOOLEAN: TRUE is FF (X.690 11.1).
pub(crate) fn boolean_in(value: &Val) -> Option<u8>
    ensures { IfSome result (λ octet. boolean_contents value.now ≡ octet ∷ []) }
{
    match &value.node {
        Node::Bool(true) => Some(255),
        Node::Bool(false) => Some(0),
        _ => None,
    }
}

pub(crate) fn integer_in(value: &Val) -> Option<i64>
    ensures { IfSome result (λ number. integer_contents value.now ≡ integer_octets number) }
{
    match &value.node {
        Node::Int(number) => Some(*number),
        _ => None,
    }
}

pub(crate) fn octets_in(value: &Val) -> Option<&[u8]>
    ensures { IfSome result (λ octets. octets_contents value.now ≡ octets.now) }
{
    match &value.node {
        Node::Octets(octets) => Some(octets.as_slice()),
        _ => None,
    }
}

pub(crate) fn text_in(value: &Val) -> Option<&[u8]>
    ensures { IfSome result (λ octets. text_contents value.now ≡ octets.now) }
{
    match &value.node {
        Node::Text(octets) => Some(octets.as_slice()),
        _ => None,
    }
}

/// How many bits of a BIT STRING are unused, which stands first (X.690 8.6.2), and its octets.
pub(crate) fn bits_in(value: &Val) -> Option<(u8, &[u8])>
    ensures { IfSome result (λ bits. bits_contents value.now ≡ bits.0 ∷ bits.1.now) }
{
    match &value.node {
        Node::Bits { octets, unused } => Some((*unused, octets.as_slice())),
        _ => None,
    }
}

/// The arcs of an OBJECT IDENTIFIER.
pub(crate) fn object_id_in(value: &Val) -> Option<&[u32]>
    ensures { IfSome result (λ arcs. object_id_contents value.now
        ≡ flat_map base_128 (subidentifiers arcs.now)) }
{
    match &value.node {
        Node::ObjectId(oid) => Some(oid.arcs()),
        _ => None,
    }
}

pub(crate) fn any_in(value: &Val) -> Option<&[u8]>
    ensures { IfSome result (λ octets. any_written value.now ≡ octets.now) }
{
    match &value.node {
        Node::Any(octets) => Some(octets.as_slice()),
        _ => None,
    }
}

/// The items of a list.
pub(crate) fn items_in(value: &Val) -> Option<&[Val]>
    ensures { IfSome result (λ items. (write : Writer) → list_contents write value.now
        ≡ values_contents write (values_of items.now)) }
{
    match &value.node {
        Node::List(values) => Some(values),
        _ => None,
    }
}

/// The parts of a SEQUENCE or SET, in the order of the notation.
pub(crate) fn parts_in(value: &Val) -> Option<&[Option<Val>]>
    ensures { IfSome result (λ parts. (write : MaybeValues → List ℕ)
        → sequence_contents write value.now ≡ write (parts_of parts.now)) }
{
    match &value.node {
        Node::Parts(values) => Some(values),
        _ => None,
    }
}

/// The alternative of a CHOICE, and its value.
pub(crate) fn chosen_in(value: &Val) -> Option<(u32, &Val)>
    ensures { IfSome result (λ chosen. (write : ℕ → Value → List ℕ)
        → choice_written write value.now ≡ write chosen.0 chosen.1.now) }
{
    match &value.node {
        Node::Chosen { which, value } => Some((*which, value)),
        _ => None,
    }
}
