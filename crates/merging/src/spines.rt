// The two spines along which trees meet: the left tree's goes down last children, the right tree's down first children.
ghost use Rattle.std.specs.Prelude.{◌≡◌, ◌-◌};
ghost use Rattle.merging.specs.Spines.{hangs_at, pair_of, left_others, right_others, others_of, below_of};

use blocks::Block;
use levels::Slot;
use rrbtree::{Room, Tree};

// The left tree's spine, with the height of the node below which its short tail hangs (0: none); or the right tree's.
#[derive(Clone, Copy)]
pub enum Side {
    Left(usize),
    Right,
}

// A spine node's block, and the height of the tree's root.
#[derive(Clone, Copy)]
pub struct Spine {
    pub block: usize,
    pub height: usize,
    pub side: Side,
}

// The two spines of a merge, and the height where they are joined, 48 at most.
#[derive(Clone, Copy)]
pub struct Pair {
    pub left: Spine,
    pub right: Spine,
    pub top: usize,
}

// The children from..to of a node.
#[derive(Clone, Copy)]
pub struct Kids {
    pub block: usize,
    pub from: usize,
    pub to: usize,
}

// The nodes beside a spine: children of a spine node; or the whole left tree, below a root that is still to come.
#[derive(Clone, Copy)]
pub enum Others {
    Kids(Kids),
    Only(usize),
}

// The height of the node below which a tail of so many elements hangs.
#[tactic(auto, unfolding(crate::specs::Spines::hangs_at))]
fn hangs(pool: &[u64], t: Tree, tail: usize) -> usize
    ensures { result ≡ hangs_at pool.now t tail }
{
    if tail == 0 {
        return 0;
    }
    match rrbtree::has_enough_capacity(pool, t) {
        Room::Root => 0,
        Room::At(level) => level,
        Room::Above => t.shift.height() + 1,
    }
}

// The spines of the receiver, with a tail of so many elements, and of the giver.
#[tactic(auto, unfolding(crate::specs::Spines::pair_of))]
pub fn pair_of(pool: &[u64], a: Tree, tail: usize, g: Tree) -> Pair
    ensures { result ≡ pair_of pool.now a tail g }
{
    let stop = hangs(pool, a, tail);
    let left = Spine {
        block: a.root,
        height: a.shift.height(),
        side: Side::Left(stop),
    };
    let right = Spine {
        block: g.root,
        height: g.shift.height(),
        side: Side::Right,
    };
    Pair {
        left,
        right,
        top: left.height.max(stop).max(right.height).min(48),
    }
}

impl Spine {
    // Below the height where the tail hangs nothing stands beside the left tree's spine; at that height all children do.
    #[tactic(auto, unfolding(crate::specs::Spines::left_others))]
    fn left_others(self, pool: &[u64], stop: usize, j: usize) -> Option<Others>
        ensures { result ≡ left_others pool.now self.block self.height stop j }
    {
        let block = self.block;
        if j < stop {
            return None;
        }
        if self.height < j {
            if j == stop {
                return Some(Others::Only(block));
            }
            return None;
        }
        if j == stop {
            let to = Block::new(pool, block).count();
            return Some(Others::Kids(Kids { block, from: 0, to }));
        }
        let to = Block::new(pool, block).last().at;
        Some(Others::Kids(Kids { block, from: 0, to }))
    }

    // All children but the first stand beside the right tree's spine.
    #[tactic(auto, unfolding(crate::specs::Spines::right_others))]
    fn right_others(self, pool: &[u64], j: usize) -> Option<Others>
        ensures { result ≡ right_others pool.now self.block self.height j }
    {
        if self.height < j {
            return None;
        }
        let block = self.block;
        let to = Block::new(pool, block).count();
        Some(Others::Kids(Kids { block, from: 1, to }))
    }

    // What stands beside the spine below its node at height j.
    #[tactic(auto, unfolding(crate::specs::Spines::others_of))]
    pub(crate) fn beside(self, pool: &[u64], j: usize) -> Option<Others>
        ensures { result ≡ others_of pool.now self j }
    {
        match self.side {
            Side::Left(stop) => self.left_others(pool, stop, j),
            Side::Right => self.right_others(pool, j),
        }
    }

    // The spine one level below height j.
    #[tactic(auto, unfolding(crate::specs::Spines::below_of))]
    pub(crate) fn below(self, pool: &[u64], j: usize) -> Self
        ensures { result ≡ below_of pool.now self j }
    {
        if self.height < j {
            return self;
        }
        let node = Block::new(pool, self.block);
        let i = match self.side {
            Side::Left(_) => node.last(),
            Side::Right => Slot { at: 0 },
        };
        Spine {
            block: node.child(i).number,
            ..self
        }
    }
}

impl Pair {
    // The pair one level below its top.
    pub(crate) fn below(self, pool: &[u64]) -> Self
        ensures { result ≡ record { left = below_of pool.now self.left self.top; right = below_of pool.now self.right self.top; top = self.top - 1 } }
    {
        Pair {
            left: self.left.below(pool, self.top),
            right: self.right.below(pool, self.top),
            top: self.top.saturating_sub(1),
        }
    }
}
