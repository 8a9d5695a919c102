//! Where reading stands.

ghost use Rattle.osi_base.specs.OctetPlaces.{HasPlaces};

/// A place in the octets, what stands from there on, and how many items the lists that follow may
/// have together.
#[derive(Clone, Copy)]
pub struct Spot<'a> {
    /// The place in the octets.
    pub place: usize,
    /// The octets from there on.
    pub rest: &'a [u8],
    /// How many items the lists that follow may have together.
    pub left: u32,
    ghost whole: { HasPlaces place rest.now },
}
