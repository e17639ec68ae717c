// The walk down to the leaf that holds a place.
ghost use Rattle.std.specs.Prelude.{◌≡◌, ◌+◌, ◌-◌};
ghost use Rattle.blocks.specs.Words.{slot_of, put_of};
ghost use Rattle.rrbtree.specs.Walks.{down_of, walk_of, found_of};

use crate::Tree;
use blocks::{Block, Field};
use levels::{Index, Shift, Slot};

// Where a walk is: a node's block and level, and the place below the node.
#[derive(Clone, Copy)]
pub struct Cursor {
    pub block: usize,
    pub shift: Shift,
    pub place: Index,
}

// A leaf's block, and the slot in it.
#[derive(Clone, Copy)]
pub struct Found {
    pub block: usize,
    pub slot: Slot,
}

impl Cursor {
    // From the root of a tree.
    pub(crate) fn new(t: Tree, place: Index) -> Self
        ensures { result ≡ record { block = t.root; shift = t.shift; place = place } }
    {
        Cursor {
            block: t.root,
            shift: t.shift,
            place,
        }
    }

    // One level down.
    #[tactic(auto, unfolding(crate::specs::Walks::down_of))]
    fn down(self, pool: &[u64]) -> Self
        ensures block { result.block ≡ (down_of pool.now self.block self.shift.0 self.place.0).block }
        ensures place { result.place ≡ (down_of pool.now self.block self.shift.0 self.place.0).place }
        ensures shift { result.shift.0 ≡ self.shift.0 - 5 }
    {
        let Cursor {
            block,
            shift,
            place,
        } = self;
        let branch = Block::new(pool, block);
        let below = shift.dec();
        if branch.is_relaxed() {
            let i = node::first_above(branch, shift, place);
            let before = node::before(branch, i.before());
            return Cursor {
                block: branch.child(i).number,
                shift: below,
                place: place.less(before),
            };
        }
        Cursor {
            block: branch.child(place.child(shift)).number,
            shift: below,
            place,
        }
    }

    // The walk ends at the leaf that it finds.
    #[tactic(auto, using(crate::specs::Walks::walk_leaf, crate::specs::Walks::walk_on))]
    fn walk(self, pool: &[u64]) -> Found
        ensures block { result.block ≡ (walk_of self.shift.0 pool.now self.block self.shift.0 self.place.0).block }
        ensures slot { result.slot.at ≡ (walk_of self.shift.0 pool.now self.block self.shift.0 self.place.0).slot }
    {
        let mut at = self;
        loop {
            if at.shift.is_leaf_level() {
                break Found {
                    block: at.block,
                    slot: at.place.element(),
                };
            }
            at = at.down(pool);
        }
    }
}

// The element at a place.
#[tactic(auto, unfolding(crate::specs::Walks::found_of))]
pub fn get(pool: &[u64], t: Tree, place: Index) -> u64
    ensures { result ≡ slot_of pool.now (found_of pool.now t place.0).block (found_of pool.now t place.0).slot }
{
    let f = Cursor::new(t, place).walk(pool);
    Block::new(pool, f.block).slot(f.slot)
}

// Stores x at a place.
#[tactic(auto, unfolding(crate::specs::Walks::found_of))]
pub fn set(pool: &mut [u64], t: Tree, place: Index, x: u64)
    ensures { pool.new ≡ put_of pool.old (found_of pool.old t place.0).block (2 + (found_of pool.old t place.0).slot) x }
{
    let f = Cursor::new(t, place).walk(pool);
    blocks::put(pool, f.block, Field::Slot(f.slot), x);
}
