// The search for room down the last children.
ghost use Rattle.std.specs.Prelude.{◌≡◌};
ghost use Rattle.rrbtree.specs.Rooms.{sibling_of, level_at, dense_room, relaxed_room, look_of, room_of, needs_of};

use crate::Tree;
use crate::walks::Cursor;
use blocks::Block;
use levels::{Index, Shift};
use std::ops::ControlFlow;

// Where a pushed leaf goes: it is the root; below a branch so many levels up; below a new root.
#[derive(Clone, Copy)]
pub enum Room {
    Root,
    At(usize),
    Above,
}

// The search at a node: the place is the length below it; the deepest level so far that may take a sibling.
#[derive(Clone, Copy)]
pub struct Search {
    pub at: Cursor,
    pub level: Option<usize>,
}

// The deepest relaxed level with a free slot, or else a new root.
#[tactic(auto, unfolding(crate::specs::Rooms::sibling_of))]
fn sibling(level: Option<usize>) -> Room
    ensures { result ≡ sibling_of level }
{
    level.map_or(Room::Above, Room::At)
}

// A level above the leaves; there is none at them.
fn level_at(height: usize) -> Option<usize>
    ensures { result ≡ level_at height }
{
    match height {
        0 => None,
        h => Some(h),
    }
}

// The level of the dense branch that gets a new child.
#[tactic(auto, using(crate::specs::Rooms::dense_low, crate::specs::Rooms::dense_on))]
fn dense_room(pool: &[u64], from: Cursor) -> usize
    ensures { result ≡ dense_room from.shift.0 pool.now from.block from.shift.0 from.place.0 }
{
    let mut at = from;
    loop {
        let branch = Block::new(pool, at.block);
        let h = at.shift.height();
        if h < 2 || at.place.child(at.shift).at == branch.count() {
            break h;
        }
        at.block = branch.child(branch.last()).number;
        at.shift = at.shift.dec();
    }
}

impl Search {
    // A relaxed branch above shift 5 sends the search on to its last child.
    #[tactic(auto, unfolding(crate::specs::Rooms::relaxed_room))]
    fn relaxed_room(self, pool: &[u64]) -> Self
        ensures { result ≡ relaxed_room pool.now self.at.block self.at.shift.0 self.at.place.0 self.level }
    {
        let Cursor {
            block,
            shift,
            place,
        } = self.at;
        let branch = Block::new(pool, block);
        let i = branch.last();
        let kid = Cursor {
            block: branch.child(i).number,
            shift: shift.dec(),
            place: place.less(node::before(branch, i.before())),
        };
        if i.at < 31 {
            return Search {
                at: kid,
                level: level_at(shift.height()),
            };
        }
        Search { at: kid, ..self }
    }

    // What one node on the way down says: where the leaf goes, or on to a child.
    #[tactic(auto, unfolding(crate::specs::Rooms::look_of))]
    fn look(self, pool: &[u64]) -> ControlFlow<Room, Self>
        ensures { result ≡ look_of pool.now self.at.block self.at.shift.0 self.at.place.0 self.level }
    {
        let Cursor {
            block,
            shift,
            place,
        } = self.at;
        let branch = Block::new(pool, block);
        if shift.is_leaf_level() {
            return ControlFlow::Break(sibling(self.level));
        }
        if shift.is_level_with_leaves() {
            if branch.count() < 32 {
                return ControlFlow::Break(Room::At(1));
            }
            return ControlFlow::Break(sibling(self.level));
        }
        if branch.is_relaxed() {
            return ControlFlow::Continue(self.relaxed_room(pool));
        }
        if place.has_room(shift) {
            return ControlFlow::Break(Room::At(dense_room(pool, self.at)));
        }
        ControlFlow::Break(sibling(self.level))
    }
}

// Where the next leaf of a tree goes.
#[tactic(auto, using(crate::specs::Rooms::search_ends, crate::specs::Rooms::search_down, crate::specs::Rooms::down_above, crate::specs::Rooms::look_shift), unfolding(crate::specs::Rooms::room_of, crate::specs::Rooms::search_of))]
pub fn has_enough_capacity(pool: &[u64], t: Tree) -> Room
    ensures { result ≡ room_of pool.now t }
{
    if t.len == 0 {
        return Room::Root;
    }
    let mut search = Search {
        at: Cursor::new(t, Index(t.len)),
        level: None,
    };
    loop {
        match search.look(pool) {
            ControlFlow::Break(room) => {
                break room;
            }
            ControlFlow::Continue(next) => {
                search = next;
            }
        }
    }
}

// The blocks that a leaf push takes.
#[tactic(auto, unfolding(crate::specs::Rooms::needs_of))]
pub fn needs(r: Room, shift: Shift) -> usize
    ensures { result ≡ needs_of r shift.0 }
{
    match r {
        Room::Root => 1,
        Room::At(level) => level,
        Room::Above => shift.height() + 2,
    }
}
