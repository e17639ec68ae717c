// One tree in the pool: the walk, leaf push, leaf pop.
#![tactic(auto)]

mod pops;
mod pushes;
mod rooms;
mod walks;

use levels::Shift;
pub use pops::{Taken, pop_leaf};
pub use pushes::{push_leaf, shift_after};
pub use rooms::{Room, has_enough_capacity, needs};
pub use walks::{get, set};

// A tree by value. One of length 0 has no root.
#[derive(Clone, Copy)]
pub struct Tree {
    pub root: usize,
    pub shift: Shift,
    pub len: usize,
}
