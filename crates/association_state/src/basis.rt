//! The module and the configuration of an end.

use association_reading::apdu_codec_layer::Heads;
use dialogue::Config;
use std::alloc::Global;
use stub_tables::Tables;

/// The module and the configuration of an end, with its allocator and the fixed tables of heads.
#[derive(Drop)]
pub struct Basis<'t> {
    /// The allocator of the end.
    pub alloc: Global,
    /// The tables of the module.
    pub tables: &'t Tables,
    /// The configuration of the end.
    pub config: Config,
    /// The fixed table of the heads of APDUs.
    pub heads: Heads,
}
