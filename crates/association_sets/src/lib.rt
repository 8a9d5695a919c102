//! Sets of presentation contexts as lists (X.226): look-ups, what may be sent on a context, and
//! alterations with their answers, as the rules of an end have them.
#![tactic(auto)]

mod alteration;
mod altering;
mod asking;
mod fitting;
mod restored;
mod sets;

pub use alteration::Alteration;
pub use altering::{accepted_set, alter_set, named_ids, proposed_ids};
pub use asking::{
    count_added, has_double, has_parity, is_bad_alteration, is_deleted_in, is_named_in, is_proposed,
};
// Passed on: crates above name these through this one.
pub use association_ground as association_ground_layer;
pub use fitting::{fit_alteration, fit_proposals};
pub use restored::{restored_list, same_lists};
pub use sets::{
    carrier, copy_set, has_abstract, has_name, is_fixed, lowest_with, may_send, put_context,
};
