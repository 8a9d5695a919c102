//! Names of syntaxes and of the application context, and numbers among others.

ghost use Rattle.std.specs.Prelude.{◌≡◌, IfOk};
ghost use Rattle.osi_base.specs.Syntax.{acse_name, rtse_name};
ghost use Rattle.end_rules.specs.Base.{ber_name, application_context};
ghost use Rattle.end_rules.specs.Sets.{same_name, is_among};

use dialogue::Mode;
use osi_base::{NoMemory, Oid};
use std::alloc::Global;

/// Whether two object identifiers are equal, arc by arc.
pub fn same_name(a: &[u32], b: &[u32]) -> bool
    ensures { result ≡ same_name a.now b.now }
{
    a == b
}

/// Whether the number is one of these.
pub fn is_among(k: u32, ks: &[u32]) -> bool
    ensures { result ≡ is_among k ks.now }
{
    ks.iter().any(|other| k == *other)
}

/// Whether this is the name of association control (X.227 9).
pub fn is_acse(name: &[u32]) -> bool
    ensures { result ≡ same_name name.now acse_name }
{
    same_name(name, &[2, 2, 1, 0, 1])
}

/// Whether this is the name of reliable transfer (this project's own).
pub fn is_rtse(name: &[u32]) -> bool
    ensures { result ≡ same_name name.now rtse_name }
{
    same_name(name, &[2, 999, 5, 2])
}

/// Whether this is the name of the basic encoding rules (X.690 12).
pub fn is_ber(name: &[u32]) -> bool
    ensures { result ≡ same_name name.now ber_name }
{
    same_name(name, &[2, 1, 1])
}

/// The name of the application context.
pub fn application_context(alloc: Global, mode: Mode) -> Result<Oid, NoMemory>
    ensures { IfOk result (λ name. name ≡ application_context mode) }
{
    match mode {
        Mode::Reliable => Oid::from_slice(alloc, &[2, 999, 5, 4]),
        Mode::Direct => Oid::from_slice(alloc, &[2, 999, 5, 3]),
        Mode::Bare => Oid::from_slice(alloc, &[2, 999, 5, 3]),
    }
}
