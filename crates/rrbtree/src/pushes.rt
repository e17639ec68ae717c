// Leaf push: a new path below the branch that has room, and the sizes on the way to it.
ghost use Rattle.std.specs.Prelude.{◌≡◌, ◌≤◌};
ghost use Rattle.blocks.specs.Pools.{on, Leaves, Gives};
ghost use Rattle.rrbtree.specs.Pushes.{path_of, add_path, go_last, push_at, push_above, push_of, shift_after};

use crate::{Room, Tree};
use blocks::Pool;
use levels::{Shift, Slot};
use node::Slots;

// A new leaf of the words of src under so many new dense branches.
#[tactic(auto, using(crate::specs::Pushes::risen_more), unfolding(crate::specs::Pushes::path_of, crate::specs::Pushes::risen_of))]
fn new_path(pool: &mut Pool<'_>, height: usize, src: Slots<'_>) -> usize
    ensures { Gives pool.old pool.new result (on (path_of height) pool.old src.entry.words.now) }
{
    let mut b = node::leaf_new(pool, src);
    for _ in 0..height {
        b = node::over(pool, b);
    }
    b
}

// A new path as the last child of branch b.
#[tactic(auto, unfolding(crate::specs::Pushes::add_path))]
fn add_path(pool: &mut Pool<'_>, b: usize, height: usize, src: Slots<'_>)
    ensures { Leaves pool.old pool.new (on (add_path height) pool.old b src.entry.words.now).0 (on (add_path height) pool.old b src.entry.words.now).1 }
{
    let n = pool.block(b).count();
    let k = new_path(pool, height, src);
    if n < 32 {
        node::link(&mut *pool.words, b, Slot { at: n }, k, src.words.len());
    }
}

// The block so many last children down; each of those is to have len elements more.
#[tactic(auto, using(crate::specs::Pushes::last_more), unfolding(crate::specs::Pushes::go_last))]
fn go_last(pool: &mut Pool<'_>, b: usize, depth: usize, len: usize) -> usize
    ensures block { result ≡ (go_last depth pool.old.words.now b len).0 }
    ensures pool { Leaves pool.old pool.new pool.old.state (go_last depth pool.old.words.now b len).1 }
{
    let mut at = b;
    for _ in 0..depth {
        let branch = pool.block(at);
        let i = branch.last();
        let next = branch.child(i).number;
        node::more_kid(&mut *pool.words, at, i, len);
        at = next;
    }
    at
}

// Below a branch so many levels up: the root stays.
#[tactic(auto, unfolding(crate::specs::Pushes::push_at))]
fn push_at(pool: &mut Pool<'_>, t: Tree, level: usize, src: Slots<'_>) -> usize
    ensures { Gives pool.old pool.new result (on push_at pool.old t level src.entry.words.now) }
{
    let depth = t.shift.height().saturating_sub(level);
    let b = go_last(pool, t.root, depth, src.words.len());
    add_path(pool, b, level.saturating_sub(1), src);
    t.root
}

// A new root over the old one, and a new path beside it.
#[tactic(auto, unfolding(crate::specs::Pushes::push_above, blocks::specs::Chain::alloc_of))]
fn push_above(pool: &mut Pool<'_>, t: Tree, src: Slots<'_>) -> usize
    ensures { Gives pool.old pool.new result (on push_above pool.old t src.entry.words.now) }
{
    let b = node::pair(pool, t.root, t.len);
    add_path(pool, b, t.shift.height(), src);
    b
}

// Pushes a leaf of the words of src where the search said. The root after that.
#[tactic(auto, unfolding(crate::specs::Pushes::push_of))]
pub fn push_leaf(pool: &mut Pool<'_>, t: Tree, r: Room, src: Slots<'_>) -> usize
    ensures { Gives pool.old pool.new result (on push_of pool.old t src.entry.words.now r) }
{
    match r {
        Room::Root => node::leaf_new(pool, src),
        Room::At(level) => push_at(pool, t, level, src),
        Room::Above => push_above(pool, t, src),
    }
}

// The level of the root after such a push.
#[tactic(auto, unfolding(crate::specs::Pushes::shift_after))]
pub fn shift_after(r: Room, shift: Shift) -> Shift
    requires { shift.0 ≤ 235 }
    ensures { result.0 ≡ shift_after shift.0 r }
{
    match r {
        Room::Root => Shift::leaf(),
        Room::At(_) => shift,
        Room::Above => shift.inc(),
    }
}
