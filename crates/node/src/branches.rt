// Branches: children and size tables.
ghost use Rattle.std.specs.Prelude.{◌≡◌};
ghost use Rattle.blocks.specs.Chain.{alloc_of};
ghost use Rattle.blocks.specs.Views.{read};
ghost use Rattle.blocks.specs.Pools.{on, Gives};
ghost use Rattle.node.specs.Branches.{above_of, before_of, link_of, more_kid, less_kid, over_of, pair_of};

use blocks::{Block, Field, Kind, Pool};
use levels::{Count, Index, Shift, Slot};

// The first slot whose size entry exceeds the place; the last slot where there is none. No entry before the first one tried can.
#[tactic(auto, using(crate::specs::Branches::first_at, crate::specs::Branches::first_end), unfolding(crate::specs::Branches::above_of))]
pub fn first_above(b: Block<'_>, shift: Shift, place: Index) -> Slot
    ensures { result.at ≡ read above_of b.entry shift.0 place.0 }
{
    for at in place.child(shift).at..31 {
        let i = Slot { at };
        if place.0 < b.size(i) {
            return i;
        }
    }
    Slot { at: 31 }
}

// The elements before slot i, by the size table.
#[tactic(auto, unfolding(crate::specs::Branches::before_of))]
pub fn before(b: Block<'_>, i: Count) -> usize
    ensures { result ≡ read before_of b.entry i.at }
{
    if 0 < i.at {
        return b.size(Slot { at: i.at - 1 });
    }
    0
}

// Makes block k the child after the first n of branch b, with len elements.
#[tactic(auto, unfolding(crate::specs::Branches::link_of))]
pub fn link(pool: &mut [u64], b: usize, n: Slot, k: usize, len: usize)
    ensures { pool.new ≡ link_of pool.old b n.at k len }
{
    let branch = Block::new(pool, b);
    let relaxed = branch.is_relaxed();
    let sum = before(branch, n.before()).wrapping_add(len);
    blocks::put(pool, b, Field::Slot(n), k as u64);
    blocks::put(pool, b, Field::Count, (n.at + 1) as u64);
    if relaxed {
        blocks::put(pool, b, Field::Size(n), sum as u64);
    }
}

// Child i, the last of branch b, is to have len elements more.
#[tactic(auto, unfolding(crate::specs::Branches::more_kid))]
pub fn more_kid(pool: &mut [u64], b: usize, i: Slot, len: usize)
    ensures { pool.new ≡ more_kid pool.old b i.at len }
{
    let branch = Block::new(pool, b);
    if branch.is_relaxed() {
        let sum = branch.size(i).wrapping_add(len);
        blocks::put(pool, b, Field::Size(i), sum as u64);
    }
}

// Child i, the last of the relaxed branch b, has len elements less.
#[tactic(auto, unfolding(crate::specs::Branches::less_kid))]
pub fn less_kid(pool: &mut [u64], b: usize, i: Slot, len: usize)
    ensures { pool.new ≡ less_kid pool.old b i.at len }
{
    let left = Block::new(pool, b).size(i).saturating_sub(len);
    blocks::put(pool, b, Field::Size(i), left as u64);
}

// A new dense branch over block k.
#[tactic(auto, unfolding(crate::specs::Branches::over_of, blocks::specs::Chain::alloc_of))]
pub fn over(pool: &mut Pool<'_>, k: usize) -> usize
    ensures { Gives pool.old pool.new result (on alloc_of pool.old, over_of pool.old.words.now pool.old.state.free k) }
{
    let b = pool.alloc();
    pool.put(b, Field::Kind, Kind::Branch.into());
    pool.put(b, Field::Count, 1);
    pool.put(b, Field::Slot(Slot { at: 0 }), k as u64);
    b
}

// A new branch over block k of len elements, relaxed where k is.
#[tactic(auto, unfolding(crate::specs::Branches::pair_of, blocks::specs::Chain::alloc_of))]
pub fn pair(pool: &mut Pool<'_>, k: usize, len: usize) -> usize
    ensures { Gives pool.old pool.new result (on alloc_of pool.old, pair_of pool.old.words.now pool.old.state.free k len) }
{
    let relaxed = pool.block(k).is_relaxed();
    let b = over(pool, k);
    if relaxed {
        pool.put(b, Field::Kind, Kind::Relaxed.into());
        pool.put(b, Field::Size(Slot { at: 0 }), len as u64);
    }
    b
}
