// The branch builder: kind, count and sizes of a node whose slots are set.
ghost use Rattle.std.specs.Prelude.{◌≡◌};
ghost use Rattle.blocks.specs.Views.{read};
ghost use Rattle.node.specs.Builds.{dense_part, sub_trie, thin_of, any_thin, sizes_of, built_of};

use blocks::{Block, Field, Kind};
use levels::{Count, Shift, Slot};

// The elements below i full children of a dense branch at a level, as a word.
#[tactic(auto, using(crate::specs::Builds::dense_past), unfolding(crate::specs::Builds::dense_part))]
fn dense_part(i: usize, shift: Shift) -> usize
    ensures { result ≡ dense_part i shift.0 }
{
    i.checked_shl(shift.0).unwrap_or(0)
}

// The elements below block b at a level, worked out through last children.
#[tactic(auto, using(crate::specs::Builds::sub_at, crate::specs::Builds::sub_leaf), unfolding(crate::specs::Builds::sub_trie))]
fn size_sub_trie(b: Block<'_>, shift: Shift) -> usize
    ensures { result ≡ read (sub_trie shift.0) b.entry shift.0 0 }
{
    let mut at = b;
    let mut s = shift;
    let mut sum: usize = 0;
    loop {
        if s.is_leaf_level() {
            break sum.wrapping_add(at.count());
        }
        let i = at.last();
        if at.is_relaxed() {
            break sum.wrapping_add(at.size(i));
        }
        sum = sum.wrapping_add(dense_part(i.at, s));
        at = at.child(i);
        s = s.dec();
    }
}

// Whether a child makes its branch relaxed: it is relaxed itself, or not full.
#[tactic(auto, unfolding(crate::specs::Builds::thin_of))]
fn is_thin(b: Block<'_>) -> bool
    ensures { result ≡ read thin_of b.entry }
{
    b.is_relaxed() || b.count() < 32
}

// Whether one of the first n children of b makes it relaxed.
#[tactic(auto, using(crate::specs::Builds::any_at, crate::specs::Builds::any_end))]
fn any_thin(b: Block<'_>, n: Count) -> bool
    ensures { result ≡ read any_thin b.entry n.at 0 }
{
    for at in 0..n.at {
        if is_thin(b.child(Slot { at })) {
            return true;
        }
    }
    false
}

// The size table of b over n children at a level.
#[tactic(auto, using(crate::specs::Builds::sizes_at, crate::specs::Builds::sizes_end))]
fn compute_sizes(pool: &mut [u64], b: usize, n: Count, below: Shift)
    ensures { pool.new ≡ sizes_of pool.old b below.0 n.at 0 0 }
{
    let mut sum: usize = 0;
    for at in 0..n.at {
        let i = Slot { at };
        let kid = Block::new(pool, b).child(i);
        sum = sum.wrapping_add(size_sub_trie(kid, below));
        blocks::put(pool, b, Field::Size(i), sum as u64);
    }
}

// Makes of block b, whose first n slots are set, a node at a level: its count, kind and sizes.
#[tactic(auto, unfolding(crate::specs::Builds::built_of))]
pub fn build(pool: &mut [u64], b: usize, n: Count, shift: Shift)
    ensures { pool.new ≡ built_of pool.old b n.at shift.0 }
{
    blocks::put(pool, b, Field::Count, n.at as u64);
    if shift.is_leaf_level() {
        blocks::put(pool, b, Field::Kind, Kind::Leaf.into());
        return;
    }
    if any_thin(Block::new(pool, b), n) {
        blocks::put(pool, b, Field::Kind, Kind::Relaxed.into());
        compute_sizes(pool, b, n, shift.dec());
        return;
    }
    blocks::put(pool, b, Field::Kind, Kind::Branch.into());
}
