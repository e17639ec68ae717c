// Leaf pop: node pop, dense pop and relaxed pop call each other while the shift falls.
ghost use Rattle.std.specs.Prelude.{◌-◌, ◌/◌, ◌≤◌, true, false};
ghost use Rattle.blocks.specs.Pools.{on};
ghost use Rattle.rrbtree.specs.Pops.{popped, Takes, take_leaf, drop_kid, branch_pop, node_pop, pop_of};

use crate::Tree;
use blocks::{Field, Pool};
use levels::{Shift, Slot};

// The leaf that goes, still in its block, and its length; how many children its node is left with; the branches that were released.
#[derive(Clone, Copy)]
pub struct Taken {
    pub leaf: usize,
    pub len: usize,
    pub left: usize,
    pub freed: usize,
}

// The last child of branch b, a leaf, goes.
#[tactic(auto, unfolding(crate::specs::Pops::take_leaf))]
fn take_leaf(pool: &mut Pool<'_>, b: usize) -> Taken
    ensures { Takes pool.old pool.new result (on take_leaf pool.old b) }
{
    let branch = pool.block(b);
    let i = branch.last();
    let leaf = branch.child(i);
    let len = leaf.count();
    let leaf = leaf.number;
    pool.put(b, Field::Count, i.at as u64);
    Taken {
        leaf,
        len,
        left: i.at,
        freed: 0,
    }
}

// Block kid, child i and the last of branch b, is emptied and goes too.
#[tactic(auto, unfolding(crate::specs::Pops::drop_kid))]
fn drop_kid(pool: &mut Pool<'_>, t: Taken, b: usize, i: Slot, kid: usize) -> Taken
    ensures { Takes pool.old pool.new result (drop_kid pool.old.words.now (popped t pool.old.state) b i.at kid) }
{
    pool.release(kid);
    pool.put(b, Field::Count, i.at as u64);
    Taken {
        left: i.at,
        freed: t.freed.wrapping_add(1),
        ..t
    }
}

// The last leaf below branch b goes; a size table, if there is one, is still to be brought up to date.
#[cycle(leaf_pop)]
#[tactic(auto, unfolding(crate::specs::Pops::branch_pop, crate::specs::Pops::after_kid, crate::specs::Pops::keep_kid))]
fn dense_pop(pool: &mut Pool<'_>, b: usize, shift: Shift) -> Taken
    requires { 5 ≤ shift.0 }
    ensures { Takes pool.old pool.new result (on (branch_pop false ((shift.0 - 5) / 5)) pool.old b) }
{
    let branch = pool.block(b);
    let i = branch.last();
    let kid = branch.child(i).number;
    let t = node_pop(pool, kid, shift.dec());
    if t.left == 0 {
        return drop_kid(pool, t, b, i, kid);
    }
    Taken {
        left: i.at + 1,
        ..t
    }
}

// As a dense branch; then the entry of its last child, if that is still there, falls.
#[cycle(leaf_pop)]
#[tactic(auto, unfolding(crate::specs::Pops::branch_pop, crate::specs::Pops::after_kid, crate::specs::Pops::keep_kid, crate::specs::Pops::drop_kid))]
fn relaxed_pop(pool: &mut Pool<'_>, b: usize, shift: Shift) -> Taken
    requires { 5 ≤ shift.0 }
    ensures { Takes pool.old pool.new result (on (branch_pop true ((shift.0 - 5) / 5)) pool.old b) }
{
    let i = pool.block(b).last();
    let t = dense_pop(pool, b, shift);
    if i.at < t.left {
        node::less_kid(&mut *pool.words, b, i, t.len);
    }
    t
}

// The last leaf below branch b goes, by the branch's kind.
#[cycle(leaf_pop)]
#[tactic(auto, using(crate::specs::Pops::pop_low, crate::specs::Pops::pop_high))]
fn node_pop(pool: &mut Pool<'_>, b: usize, shift: Shift) -> Taken
    ensures { Takes pool.old pool.new result (on (node_pop (shift.0 / 5)) pool.old b) }
{
    if shift.height() < 2 {
        return take_leaf(pool, b);
    }
    if pool.block(b).is_relaxed() {
        return relaxed_pop(pool, b, shift);
    }
    dense_pop(pool, b, shift)
}

// Takes the last leaf off a tree; a root left with one child is still there.
#[tactic(auto, unfolding(crate::specs::Pops::pop_of))]
pub fn pop_leaf(pool: &mut Pool<'_>, t: Tree) -> Taken
    ensures { Takes pool.old pool.new result (on pop_of pool.old t) }
{
    if t.shift.is_leaf_level() {
        return Taken {
            leaf: t.root,
            len: pool.block(t.root).count(),
            left: 0,
            freed: 0,
        };
    }
    node_pop(pool, t.root, t.shift)
}
