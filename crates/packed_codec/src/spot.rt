//! Where reading stands.

/// A place in the octets, what stands from there on, and what may still be counted.
#[derive(Clone, Copy)]
pub struct Spot<'a> {
    /// Its place, counted from 0.
    pub place: usize,
    /// The octets from there on.
    pub rest: &'a [u8],
    /// How many items the lists that follow may have together.
    pub left: u32,
}
