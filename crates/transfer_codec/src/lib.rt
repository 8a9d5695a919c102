//! A law: there is a codec of transfers as the model of `agreement` presumes one, with this
//! project's spellings. So what the laws of two ends of reliable mode presume can be met.
#![tactic(auto)]

mod laws;

pub use laws::transfers_have_a_codec;
