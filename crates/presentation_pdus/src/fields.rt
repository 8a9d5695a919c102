//! The fields of the units of the presentation protocol.

ghost use Rattle.std.specs.Prelude.{◌≡◌, true};
ghost use Rattle.std.specs.Prelude.{true};
ghost use Rattle.asn1_types.specs.declared.row.Class.TheVariants.{Context as context};
ghost use Rattle.passed_fields.specs.Known.{of_row};
ghost use Rattle.presentation_pdus.specs.Fields.{user_field, unread_user_field, default_field, connect_fields, accept_fields, reject_fields, alter_fields, alter_ack_fields, restart_fields, user_abort_fields, provider_abort_fields};

use asn1_types::{Class, TypeId};
use passed_fields::{Field, Holds};

/// A context tag and a row, of a field that may lack.
fn of_row(number: u32, row: u32) -> Field
    ensures { result ≡ of_row context number row true }
{
    Field::of_row(Class::Context, number, row, true)
}

/// User data: presentation data values, at least one.
fn user_field() -> Field
    ensures { result ≡ user_field }
{
    Field {
        class: Class::Application,
        number: 1,
        holds: Holds::Some(TypeId(14)),
        optional: true,
    }
}

/// User data of which nothing is kept.
fn unread_user_field() -> Field
    ensures { result ≡ unread_user_field }
{
    Field {
        class: Class::Application,
        number: 1,
        holds: Holds::Any,
        optional: true,
    }
}

/// A default context: any one value.
fn default_field() -> Field
    ensures { result ≡ default_field }
{
    Field {
        class: Class::Context,
        number: 6,
        holds: Holds::Any,
        optional: true,
    }
}

pub(crate) fn connect_fields() -> [Field; 8]
    ensures { result ≡ connect_fields }
{
    [
        of_row(0, 32),
        of_row(1, 33),
        of_row(2, 34),
        of_row(4, 36),
        default_field(),
        of_row(8, 39),
        of_row(9, 40),
        user_field(),
    ]
}

pub(crate) fn accept_fields() -> [Field; 6]
    ensures { result ≡ accept_fields }
{
    [
        of_row(0, 32),
        of_row(3, 35),
        of_row(5, 37),
        of_row(8, 39),
        of_row(9, 40),
        user_field(),
    ]
}

pub(crate) fn reject_fields() -> [Field; 6]
    ensures { result ≡ reject_fields }
{
    [
        of_row(0, 32),
        of_row(3, 35),
        of_row(5, 37),
        of_row(7, 38),
        of_row(10, 41),
        user_field(),
    ]
}

pub(crate) fn alter_fields() -> [Field; 3]
    ensures { result ≡ alter_fields }
{
    [of_row(0, 49), of_row(1, 50), unread_user_field()]
}

pub(crate) fn alter_ack_fields() -> [Field; 3]
    ensures { result ≡ alter_ack_fields }
{
    [of_row(0, 53), of_row(1, 54), unread_user_field()]
}

pub(crate) fn restart_fields() -> [Field; 2]
    ensures { result ≡ restart_fields }
{
    [of_row(0, 57), unread_user_field()]
}

pub(crate) fn user_abort_fields() -> [Field; 2]
    ensures { result ≡ user_abort_fields }
{
    [of_row(0, 57), user_field()]
}

pub(crate) fn provider_abort_fields() -> [Field; 2]
    ensures { result ≡ provider_abort_fields }
{
    [Field::of_row(Class::Context, 0, 61, false), of_row(1, 62)]
}
