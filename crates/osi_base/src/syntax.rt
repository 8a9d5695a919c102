//! Transfer syntaxes, and the pairs that presentation contexts stand for.

ghost use Rattle.std.specs.Prelude.{◌≡◌, ◌≢◌, IfOk, IfSome, IfNone};
ghost use Rattle.osi_base.specs.Syntax.{is_listed};

use crate::copied::Copied;
use crate::fault::NoMemory;
use crate::oid::Oid;
use std::alloc::Global;

/// The transfer syntaxes that an end can write and read.
#[derive(Clone, Copy, Debug, PartialEq, Eq)]
pub enum Syntax {
    /// The basic encoding rules of ASN.1, {2 1 1} (X.690 12).
    Ber,
    /// The distinguished encoding rules of ASN.1, {2 1 2 1} (X.690 12).
    Der,
    /// This project's packed syntax, {2 999 5 1}.
    Packed,
}

impl Syntax {
    ghost use Rattle.osi_base.specs.Syntax.{name_of, syntax_named};
    ghost use Rattle.osi_base.specs.declared.syntax.Syntax.{Syntax};

    /// The arcs of the syntax's name.
    pub fn arcs(self) -> &'static [u32]
        ensures { result.now ≡ name_of self }
    {
        match self {
            Syntax::Ber => &[2, 1, 1],
            Syntax::Der => &[2, 1, 2, 1],
            Syntax::Packed => &[2, 999, 5, 1],
        }
    }

    /// The syntax's name.
    pub fn name(self, alloc: Global) -> Result<Oid, NoMemory>
        ensures { IfOk result (λ oid. oid ≡ name_of self) }
    {
        match self {
            Syntax::Ber => Oid::from_slice(alloc, &[2, 1, 1]),
            Syntax::Der => Oid::from_slice(alloc, &[2, 1, 2, 1]),
            Syntax::Packed => Oid::from_slice(alloc, &[2, 999, 5, 1]),
        }
    }

    /// The syntax whose name has these arcs (X.690 12); `None` where it is none of the three.
    #[tactic(auto, using(crate::proofs::Syntaxes::named_back, crate::proofs::Syntaxes::none_named))]
    pub fn from_name(name: &[u32]) -> Option<Syntax>
        ensures named { result ≡ syntax_named name.now }
        ensures found { IfSome result (λ syntax. name.now ≡ name_of syntax) }
        ensures none { IfNone result ((syntax : Syntax) → name.now ≢ name_of syntax) }
    {
        if name == Syntax::Ber.arcs() {
            return Some(Syntax::Ber);
        }
        if name == Syntax::Der.arcs() {
            return Some(Syntax::Der);
        }
        if name == Syntax::Packed.arcs() {
            return Some(Syntax::Packed);
        }
        None
    }
}

/// Whether the name with these arcs stands among the others.
pub fn is_listed(name: &[u32], names: &[Oid]) -> bool
    ensures { result ≡ is_listed name.now names.now }
{
    for other in names {
        if name == other.arcs() {
            return true;
        }
    }
    false
}

/// What a presentation context stands for: an abstract syntax, and the transfer syntax in which
/// its values travel (X.216 3.3.14).
#[derive(Debug, Drop)]
pub struct Pair {
    /// The abstract syntax: of a module its object identifier.
    pub abstract_name: Oid,
    /// The transfer syntax in which values are spelled.
    pub transfer: Syntax,
}

impl Copied for Pair {
    fn copy(&self, alloc: Global) -> Result<Pair, NoMemory> {
        Ok(Pair {
            abstract_name: self.abstract_name.copy(alloc)?,
            transfer: self.transfer,
        })
    }
}
