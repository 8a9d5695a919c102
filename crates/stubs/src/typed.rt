//! Values that fit what carries them.

ghost use Rattle.std.specs.Prelude.{◌≡◌, IsTrue};
ghost use Rattle.stub_tables.specs.Uses.{is_carried};

use asn1_types::{TypeTable, Val};
use std::error::Error;
use std::fmt;
use stub_tables::Use;

/// A value, or its lack, that fits what carries it (X.880 8.2.2, 8.2.3, 8.3.2).
#[derive(Drop)]
pub struct TypedVal<'t> {
    pub(crate) types: &'t TypeTable,
    pub(crate) carried: Use,
    pub(crate) value: Option<Val>,
    ghost fit: { IsTrue (is_carried types.now carried value) },
}

/// A value, or its lack, that doesn't fit, given back.
#[derive(Debug, Drop)]
pub struct Unfit {
    /// The value, or its lack.
    pub value: Option<Val>,
}

impl fmt::Display for Unfit {
    ghost use Rattle.std.specs.Prelude.{Some, codes};

    ghost output = { λ _. Some (codes "the value, or its lack, does not fit") };

    fn fmt<W: fmt::Write>(&self, f: &mut fmt::Formatter<W>) -> fmt::Result {
        f.write_str("the value, or its lack, does not fit")
    }
}

impl Error for Unfit {}

impl<'t> TypedVal<'t> {
    /// The value, or its lack.
    pub fn value(&self) -> &Option<Val>
        ensures value { result.now ≡ self.now.value }
        ensures fits { IsTrue (is_carried self.now.types.now self.now.carried self.now.value) }
    {
        &self.value
    }

    /// What carries the value.
    pub fn carried(&self) -> Use
        ensures { result ≡ self.now.carried }
    {
        self.carried
    }

    /// The value, or its lack, itself.
    pub fn into_value(self) -> Option<Val>
        ensures { result ≡ self.entry.value }
    {
        let TypedVal {
            types: _,
            carried: _,
            value,
        } = self;
        value
    }
}
