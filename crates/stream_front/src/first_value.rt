//! What octets begin with.

/// What octets begin with.
#[derive(Clone, Copy, Debug, PartialEq, Eq)]
pub enum FirstValue {
    /// Less than one value.
    Short,
    /// One whole value of so many octets.
    Whole(usize),
    /// What is no value, however it goes on: a field at this place breaks the rules.
    Faulty(usize),
}
