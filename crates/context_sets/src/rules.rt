//! What an end accepts.

use osi_base::{Oid, Oids};
use std::error::Error;
use std::fmt;

/// What an end accepts of the contexts that the other end proposes.
#[derive(Debug, Drop)]
pub struct Rules {
    /// The abstract syntax of the module.
    pub module: Oid,
    /// Whether the contexts are those of a CP, where those of ACSE and RTSE are proposed too.
    pub connect: bool,
    /// Whether the association is one of reliable mode.
    pub reliable: bool,
    /// The transfer syntaxes that are accepted for the module.
    pub accepts: Oids,
}

/// Why an end rejects an addition, as its reason says (X.226 8.2).
#[derive(Clone, Copy, Debug, PartialEq, Eq)]
pub enum Rejection {
    /// The abstract syntax isn't one that the end takes.
    AbstractSyntax,
    /// None of the transfer syntaxes is accepted.
    TransferSyntaxes,
    /// The set has no place for another context.
    LocalLimit,
}

impl fmt::Display for Rejection {
    ghost use Rattle.std.specs.Prelude.{Some};
    ghost use Rattle.context_sets.specs.Printed.{rejection_text};

    ghost output = { λ rejection. Some (rejection_text rejection) };

    fn fmt<W: fmt::Write>(&self, f: &mut fmt::Formatter<W>) -> fmt::Result {
        f.write_str(match self {
            Rejection::AbstractSyntax => "the abstract syntax is not one that the end takes",
            Rejection::TransferSyntaxes => "none of the transfer syntaxes is accepted",
            Rejection::LocalLimit => "the set has no place for another context",
        })
    }
}

impl Error for Rejection {}
