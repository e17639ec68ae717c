// One node: leaf add, merge and take; the branch builder and the size tables.
#![tactic(auto)]

mod branches;
mod builds;
mod leaves;

pub use branches::{before, first_above, less_kid, link, more_kid, over, pair};
pub use builds::build;
pub use leaves::{Slots, in_use, leaf_add, leaf_merge, leaf_new, leaf_take, slots_fill};
