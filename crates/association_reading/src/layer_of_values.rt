//! Which layer's values a message carries: association control's, reliable transfer's or the
//! module's.

/// Of which layer the presentation data values of a message are (X.226 8.4.2, X.227 9, X.228 9,
/// X.882 9). A value on a context with their abstract syntax is read as one of them, also where
/// another layer's has the same name.
#[derive(Clone, Copy, Debug, PartialEq, Eq)]
pub enum LayerOfValues {
    /// Association control: in openings and releases, and in their answers.
    Association,
    /// Reliable transfer: in pleas, and in the data of reliable mode.
    Transfer,
    /// Remote operations of the module: in the data of direct mode, and in transfers.
    Module,
}
