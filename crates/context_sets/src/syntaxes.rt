//! Names of syntaxes.

ghost use Rattle.std.specs.Prelude.{◌≡◌};
ghost use Rattle.osi_base.specs.Syntax.{acse_name, rtse_name};
ghost use Rattle.context_sets.specs.Syntaxes.{is_same, is_fixed};

/// Whether two object identifiers are one.
pub(crate) fn is_same(a: &[u32], b: &[u32]) -> bool
    ensures { result ≡ is_same a.now b.now }
{
    a == b
}

/// Whether this is the name of ACSE.
pub(crate) fn is_acse(name: &[u32]) -> bool
    ensures { result ≡ is_same name.now acse_name }
{
    is_same(name, &[2, 2, 1, 0, 1])
}

/// Whether this is the name of RTSE.
pub(crate) fn is_rtse(name: &[u32]) -> bool
    ensures { result ≡ is_same name.now rtse_name }
{
    is_same(name, &[2, 999, 5, 2])
}

/// Whether contexts with this abstract syntax are never deleted.
pub(crate) fn is_fixed(name: &[u32]) -> bool
    ensures { result ≡ is_fixed name.now }
{
    is_acse(name) || is_rtse(name)
}
