//! Names of abstract syntaxes.

ghost use Rattle.std.specs.Prelude.{◌≡◌};
ghost use Rattle.osi_base.specs.Syntax as syntax_names;
ghost use Rattle.association_intake.specs.association_reading.Contexts as reading;

use association_intake::association_reading_layer::LayerOfValues;
use stub_tables::Tables;

/// The name of association control (X.227 9).
pub(crate) fn acse_name() -> &'static [u32]
    ensures { result.now ≡ syntax_names.acse_name }
{
    &[2, 2, 1, 0, 1]
}

/// The name of reliable transfer (this project's own).
pub(crate) fn rtse_name() -> &'static [u32]
    ensures { result.now ≡ syntax_names.rtse_name }
{
    &[2, 999, 5, 2]
}

/// The abstract syntax of the values that a message carries.
pub(crate) fn name_carried<'a>(tables: &'a Tables, carried: LayerOfValues) -> &'a [u32]
    ensures { result.now ≡ reading.name_carried tables.now carried }
{
    match carried {
        LayerOfValues::Association => acse_name(),
        LayerOfValues::Transfer => rtse_name(),
        LayerOfValues::Module => tables.name_oid.arcs(),
    }
}
