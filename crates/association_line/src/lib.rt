//! One end of direct or reliable mode together with its octets, as definitions with laws: what it
//! does with octets that come, however they are cut, at a call, and by itself. `association_end` is
//! the code that follows them.
#![tactic(auto)]

mod laws;

pub use laws::{one_call, one_feed, own_acts_end, reactions_are_steps};
