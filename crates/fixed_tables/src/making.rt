//! Values made of their fields.

ghost use Rattle.std.specs.Prelude.{◌≡◌, ◌++◌, ◌∷◌, [], IfOk, OnOk, option_map};
ghost use Rattle.asn1_types.specs.Value as tree;
ghost use Rattle.asn1_types.specs.ValueView.{parts_of};
ghost use Rattle.fixed_tables.specs.Values.{bits_value};

use asn1_types::{MaybeVals, Node, Val};
use osi_base::{BitString, Copied, NoMemory, Octets, Oid};
use std::alloc::Global;

/// A value of INTEGER.
pub fn integer(number: i64) -> Val
    ensures { result ≡ tree.integer number }
{
    Val {
        node: Node::Int(number),
    }
}

/// A number as a part, where there is one.
pub fn number_part(number: Option<i64>) -> Option<Val>
    ensures { result ≡ option_map tree.integer number }
{
    match number {
        Some(number) => Some(integer(number)),
        None => None,
    }
}

/// A value of OCTET STRING with a copy of these octets.
pub fn octets(alloc: Global, octets: &Octets) -> Result<Val, NoMemory>
    ensures { IfOk result (λ v. v ≡ tree.octets octets.now) }
{
    Ok(Val {
        node: Node::Octets(octets.copy(alloc)?),
    })
}

/// One whole value, whose octets are a copy of these.
pub fn any(alloc: Global, octets: &Octets) -> Result<Val, NoMemory>
    ensures { IfOk result (λ v. v ≡ tree.any octets.now) }
{
    Ok(Val {
        node: Node::Any(octets.copy(alloc)?),
    })
}

/// A value of a CHOICE.
pub fn chosen(alloc: Global, which: u32, value: Val) -> Result<Val, NoMemory>
    ensures { IfOk result (λ v. v ≡ tree.chosen which value) }
{
    Ok(Val {
        node: Node::Chosen {
            which,
            value: Box::new(alloc, value)?,
        },
    })
}

/// A value of a SEQUENCE or SET.
pub fn sequence(parts: MaybeVals) -> Val
    ensures { result ≡ tree.parts (parts_of parts.items) }
{
    Val {
        node: Node::Parts(parts),
    }
}

/// Puts one more part at the end; `None` is one that is absent.
pub fn present(parts: &mut MaybeVals, value: Option<Val>) -> Result<(), NoMemory>
    ensures { OnOk result (parts.new.items ≡ parts.old.items ++ value ∷ []) }
{
    parts.push(value)?;
    Ok(())
}

/// A value of OBJECT IDENTIFIER.
pub fn object_id(alloc: Global, oid: &Oid) -> Result<Val, NoMemory>
    ensures { IfOk result (λ v. v ≡ tree.object_id oid.now) }
{
    Ok(Val {
        node: Node::ObjectId(oid.copy(alloc)?),
    })
}

/// A value of BIT STRING.
pub fn bits(alloc: Global, string: &BitString) -> Result<Val, NoMemory>
    ensures { IfOk result (λ v. v ≡ bits_value string.now) }
{
    Ok(Val {
        node: Node::Bits {
            octets: string.octets.copy(alloc)?,
            unused: string.unused,
        },
    })
}

/// An object identifier as a part, where there is one.
pub fn name_part(alloc: Global, name: &Option<Oid>) -> Result<Option<Val>, NoMemory>
    ensures { IfOk result (λ part. part ≡ option_map tree.object_id name.now) }
{
    match name {
        Some(name) => Ok(Some(object_id(alloc, name)?)),
        None => Ok(None),
    }
}

/// Bits as a part, a value of BIT STRING, where there are some (X.690 8.6).
pub fn bits_part(alloc: Global, string: &Option<BitString>) -> Result<Option<Val>, NoMemory>
    ensures { IfOk result (λ part. part ≡ option_map bits_value string.now) }
{
    match string {
        Some(string) => Ok(Some(bits(alloc, string)?)),
        None => Ok(None),
    }
}
