// The merge: a recursion down both spines and up again.
ghost use Rattle.std.specs.Prelude.{◌≡◌, ◌*◌, ◌≤◌, min, slice_index};
ghost use Rattle.blocks.specs.Pools.{Leaves};
ghost use Rattle.merging.specs.Areas.{node_at};
ghost use Rattle.merging.specs.Lent.{on, Stores, Becomes, Packs, Joins};
ghost use Rattle.merging.specs.Merges.{add_items, row_slots, collect_of, collect_both, lift_leaf, lift_leaves, merge_level, merge_of};

use crate::areas::{Entry, Item, Row, Spot};
use crate::spines::{Kids, Others};
use crate::{Lent, Pair, areas};
use blocks::{Block, Pool};
use levels::{Count, Shift, Slot};
use node::Slots;

// The merged tree's root and level.
#[derive(Clone, Copy)]
pub struct Merged {
    pub root: usize,
    pub shift: Shift,
}

// The elements of leaf b go up, after the first out.
#[tactic(auto, using(crate::specs::Merges::leaf_sets))]
fn lift_leaf(words: &[u64], work: &mut [u64], b: usize, out: Count)
    ensures { work.new ≡ lift_leaf words.now work.old b out.at }
{
    areas::lift(work, node::in_use(Block::new(words, b)), out);
}

impl Lent<'_, '_> {
    // Adds children to row j.
    #[tactic(auto, using(crate::specs::Merges::add_at, crate::specs::Merges::add_end), unfolding(crate::specs::Merges::add_items))]
    fn add_items(&mut self, j: Row, k: Kids)
        ensures { Stores self.old self.new (add_items self.old.words.now self.old.work.now j.at k.block k.from k.to) }
    {
        for at in k.from..k.to.min(32) {
            let kid = self.block(k.block).child(Slot { at }).number;
            self.add_item(j, kid);
        }
    }

    // The slots of the nodes of row j.
    #[tactic(auto, using(crate::specs::Merges::slots_at, crate::specs::Merges::slots_end), unfolding(crate::specs::Merges::row_slots))]
    fn row_slots(&self, j: Row) -> usize
        ensures { result ≡ row_slots self.now.words.now self.now.work.now j.at }
    {
        let mut sum: usize = 0;
        for at in 0..self.row_len(j).at {
            sum += self.count(j, Item { at });
        }
        sum
    }

    // The nodes beside a spine go into row j, and their spine node is released.
    #[tactic(auto, unfolding(crate::specs::Merges::collect_of))]
    fn collect(&mut self, j: Row, o: Option<Others>)
        ensures { Becomes self.old self.new (on collect_of self.old j.at o) }
    {
        match o {
            None => {}
            Some(Others::Kids(k)) => {
                self.add_items(j, k);
                self.state.release(&mut *self.words, k.block);
            }
            Some(Others::Only(b)) => {
                self.add_item(j, b);
            }
        }
    }

    // Both spines' nodes go into row j, the left ones first; its place is after those.
    #[tactic(auto, unfolding(crate::specs::Merges::collect_both, crate::specs::Areas::set_row_place))]
    fn collect_both(&mut self, j: Row, l: Option<Others>, r: Option<Others>)
        ensures { Becomes self.old self.new (on collect_both self.old j.at l r) }
    {
        self.collect(j, l);
        let p = self.row_slots(j);
        self.put(Entry::Place(j), p as u64);
        self.collect(j, r);
    }

    // The elements of the two leaves that meet go up; a tail stands for the left one.
    #[tactic(auto, unfolding(crate::specs::Merges::lift_leaves, crate::specs::Merges::lift_tail))]
    fn lift_leaves(&mut self, tail: Slots<'_>, l: usize, r: usize) -> usize
        ensures { Packs self.old self.new result (on lift_leaves self.old tail.entry.words.now l r) }
    {
        let t = tail.words.len();
        let n = self.block(r).count();
        if 0 < t {
            areas::lift(&mut *self.work, tail, Count { at: 0 });
            lift_leaf(&mut *self.words, &mut *self.work, r, Count { at: t });
            self.state.release(&mut *self.words, r);
            return t + n;
        }
        let m = self.block(l).count();
        lift_leaf(&mut *self.words, &mut *self.work, l, Count { at: 0 });
        lift_leaf(&mut *self.words, &mut *self.work, r, Count { at: m });
        self.state.release(&mut *self.words, l);
        self.state.release(&mut *self.words, r);
        m + n
    }

    // The spines from their top down: what goes up to that height.
    #[tactic(auto, using(crate::specs::Merges::merge_bottom, crate::specs::Merges::merge_up, crate::specs::Lent::became, crate::specs::Lent::packs_so))]
    fn merge_level(&mut self, tail: Slots<'_>, p: Pair) -> usize
        requires { p.top ≤ 50 }
        ensures { Packs self.old self.new result (on (merge_level p.top) self.old tail.entry.words.now p.left p.right) }
    {
        if p.top == 0 {
            return self.lift_leaves(tail, p.left.block, p.right.block);
        }
        let row = Row { at: p.top - 1 };
        let l = p.left.beside(self.words(), p.top);
        let r = p.right.beside(self.words(), p.top);
        let below = p.below(self.words());
        self.collect_both(row, l, r);
        self.squeeze(row);
        let n = self.merge_level(tail, below);
        self.insert(row, n)
    }

    // The merge of a pair, from its top on.
    #[tactic(auto, using(crate::specs::Merges::merge_one, crate::specs::Merges::merge_two, crate::specs::Lent::packs_so))]
    fn merge_pair(&mut self, tail: Slots<'_>, p: Pair) -> Merged
        requires { p.top ≤ 48 }
        ensures { Joins self.old self.new result.root result.shift (on merge_of self.old tail.entry.words.now p) }
    {
        self.clear_area();
        let top = p.top;
        let c = self.merge_level(tail, p);
        let n = self.insert(Row { at: top }, c);
        if n < 2 {
            return self.merged(top);
        }
        self.insert(Row { at: top + 1 }, n);
        self.merged(top + 1)
    }

    // The first node that went up as the root of a tree.
    fn merged(&self, height: usize) -> Merged
        ensures root { result.root ≡ slice_index self.now.work.now (node_at 0) }
        ensures shift { result.shift ≡ record { 0 = min height 48 * 5 } }
    {
        Merged {
            root: self.get(Entry::Raised(Spot { at: 0 })) as usize,
            shift: Shift::at(height),
        }
    }
}

// Merges the pair of trees, the left one with its tail.
pub fn merge(pool: &mut Pool<'_>, work: &mut [u64], tail: Slots<'_>, p: Pair) -> Merged
    requires { p.top ≤ 48 }
    ensures tree { let x = merge_of pool.old.words.now pool.old.state work.old tail.entry.words.now p in (result.root ≡ x.0.root) × (result.shift ≡ x.0.shift) }
    ensures lent { let x = merge_of pool.old.words.now pool.old.state work.old tail.entry.words.now p in Leaves pool.old pool.new x.0.state x.1 × (work.new ≡ x.2) }
{
    let mut lent = Lent {
        words: &mut *pool.words,
        state: pool.state,
        work,
    };
    let merged = lent.merge_pair(tail, p);
    pool.state = lent.state;
    merged
}
