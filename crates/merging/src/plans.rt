// Held after a merge, from counts alone: no word changes.
ghost use Rattle.std.specs.Prelude.{◌≡◌};
ghost use Rattle.merging.specs.Plans.{counts_of, with_others, packed_of, plan_leaves, plan_level, held_after};

use crate::Pair;
use crate::spines::{Kids, Others};
use blocks::Block;
use levels::Slot;

// The nodes or elements that go up to the next height, the nodes that the merge makes, and those that it takes apart or packs anew.
#[derive(Clone, Copy)]
pub struct Plan {
    pub slots: usize,
    pub made: usize,
    pub gone: usize,
}

// The counts of some children.
#[tactic(auto, using(crate::specs::Plans::counts_at, crate::specs::Plans::counts_end), unfolding(crate::specs::Plans::counts_of))]
fn counts(pool: &[u64], k: Kids) -> usize
    ensures { result ≡ counts_of pool.now k.block k.from k.to }
{
    let b = Block::new(pool, k.block);
    let mut sum: usize = 0;
    for at in k.from..k.to.min(32) {
        sum = sum.wrapping_add(b.child(Slot { at }).count());
    }
    sum
}

impl Plan {
    // The plan with the nodes beside a spine added.
    #[tactic(auto, unfolding(crate::specs::Plans::with_others))]
    fn with_others(self, pool: &[u64], o: Option<Others>) -> Self
        ensures { result ≡ with_others pool.now self o }
    {
        match o {
            None => self,
            Some(Others::Kids(k)) => Plan {
                slots: self.slots.wrapping_add(counts(pool, k)),
                gone: self
                    .gone
                    .wrapping_add(k.to.saturating_sub(k.from).wrapping_add(1)),
                ..self
            },
            Some(Others::Only(b)) => Plan {
                slots: self.slots.wrapping_add(Block::new(pool, b).count()),
                gone: self.gone.wrapping_add(1),
                ..self
            },
        }
    }

    // The plan with its slots packed into nodes.
    #[tactic(auto, unfolding(crate::specs::Plans::packed_of))]
    fn packed(self) -> Self
        ensures { result ≡ packed_of self }
    {
        let n = self.slots.wrapping_add(31) / 32;
        Plan {
            slots: n,
            made: self.made.wrapping_add(n),
            ..self
        }
    }

    // The two leaves that meet; a tail stands for the left one.
    #[tactic(auto, unfolding(crate::specs::Plans::plan_leaves))]
    fn leaves(pool: &[u64], p: Pair, tail: usize) -> Self
        ensures { result ≡ plan_leaves pool.now p.left tail p.right }
    {
        let n = Block::new(pool, p.right.block).count();
        if 0 < tail {
            return Plan {
                slots: tail.wrapping_add(n),
                made: 0,
                gone: 1,
            };
        }
        Plan {
            slots: Block::new(pool, p.left.block).count().wrapping_add(n),
            made: 0,
            gone: 2,
        }
    }

    // The plan up to the top of a pair.
    #[tactic(auto, using(crate::specs::Plans::plan_bottom, crate::specs::Plans::plan_up))]
    fn level(pool: &[u64], p: Pair, tail: usize) -> Self
        ensures { result ≡ plan_level p.top pool.now p.left tail p.right }
    {
        if p.top == 0 {
            return Plan::leaves(pool, p, tail);
        }
        Plan::level(pool, p.below(pool), tail)
            .with_others(pool, p.left.beside(pool, p.top))
            .with_others(pool, p.right.beside(pool, p.top))
            .packed()
    }
}

// The blocks held after a merge by trees that hold so many together.
#[tactic(auto, unfolding(crate::specs::Plans::held_after))]
pub fn held_after(pool: &[u64], p: Pair, tail: usize, held: usize) -> usize
    ensures { result ≡ held_after pool.now p tail held }
{
    let q = Plan::level(pool, p, tail).packed();
    let after = held.saturating_sub(q.gone).wrapping_add(q.made);
    if 1 < q.slots {
        return after.wrapping_add(1);
    }
    after
}
