// Packing the nodes of one height.
ghost use Rattle.std.specs.Prelude.{◌≡◌, ◌-◌, ◌≤◌, max};
ghost use Rattle.blocks.specs.Words.{count_of};
ghost use Rattle.merging.specs.Areas.{item_of};
ghost use Rattle.merging.specs.Lent.{on, Holds, Stores, Becomes, Packs};
ghost use Rattle.merging.specs.Packs.{lead_from, pour_out, block_for, write_node, pour_in, release_items, pour_of, stays_whole, raise_nodes, raise_rest, insert_whole, insert_poured, insert_of, squeeze_of};

use crate::areas::{Entry, Gap, InRow, Item, Raised, Rising, Row, Spot};
use crate::{Lent, areas};
use levels::{Count, Shift, Slot};

// Whether c nodes from below at place p, after k full nodes, leave whole what follows them.
#[tactic(auto, unfolding(crate::specs::Packs::stays_whole))]
fn stays_whole(k: InRow, p: usize, c: Raised) -> bool
    ensures { result ≡ stays_whole k.at p c.at }
{
    k.at * 32 == p && c.at % 32 == 0
}

// Makes block b a node of height j of the m flat slots from t on.
#[tactic(auto, unfolding(crate::specs::Packs::write_node))]
fn write_node(words: &mut [u64], work: &[u64], b: usize, t: Spot, m: Count, j: Row)
    ensures { words.new ≡ write_node words.old work.now b t.at m.at j.at }
{
    if let Some(src) = areas::flat(work, t, m) {
        node::slots_fill(words, b, src);
        node::build(words, b, m, Shift::at(j.at));
    }
}

impl Lent<'_, '_> {
    // The slots of node i of row j.
    pub(crate) fn count(&self, j: Row, i: Item) -> usize
        ensures { result ≡ count_of self.now.words.now (item_of self.now.work.now j.at i.at) }
    {
        self.block(self.item(j, i)).count()
    }

    // The full nodes of row j from k on, before the first that is not full, and before node end.
    #[tactic(auto, using(crate::specs::Packs::lead_at, crate::specs::Packs::lead_end), unfolding(crate::specs::Packs::lead_from))]
    fn leading(&self, j: Row, k: InRow, end: InRow) -> InRow
        ensures full { result.at ≡ lead_from self.now.words.now self.now.work.now j.at (end.at - k.at) k.at }
        ensures low { k.at ≤ result.at }
        ensures high { result.at ≤ max k.at end.at }
    {
        for at in k.at..end.at {
            if self.count(j, Item { at }) != 32 {
                return InRow { at };
            }
        }
        InRow {
            at: k.at.max(end.at),
        }
    }

    // Lays the slots of row j's nodes from k on flat, with a gap. Where they end. A node ends its turn in the outer, labelled loop.
    #[tactic(auto, using(crate::specs::Packs::nodes_end, crate::specs::Packs::nodes_more), unfolding(crate::specs::Packs::pour_out))]
    fn pour_out(&mut self, j: Row, k: InRow, gap: Gap) -> Spot
        ensures end { result.at ≡ (pour_out self.old.words.now self.old.work.now j.at k.at gap.at gap.len.at).0 }
        ensures lent { Stores self.old self.new (pour_out self.old.words.now self.old.work.now j.at k.at gap.at gap.len.at).1 }
    {
        let mut t = gap.past(Spot { at: 0 });
        'nodes: for i in k.at..self.row_len(j).at {
            let b = self.item(j, Item { at: i });
            let m = self.block(b).count();
            for at in 0..32 {
                if m <= at {
                    continue 'nodes;
                }
                let x = self.block(b).slot(Slot { at });
                self.put(Entry::Flat(Spot { at: t }), x);
                t = gap.past(Spot { at: t + 1 });
            }
        }
        Spot { at: t }
    }

    // A block for a node: the row's node i, or a free one.
    #[tactic(auto, unfolding(crate::specs::Packs::block_for))]
    fn block_for(&mut self, j: Row, i: usize) -> usize
        ensures block { result ≡ (on block_for self.old j.at i).block }
        ensures lent { Holds self.old self.new (on block_for self.old j.at i).state self.old.words.now self.old.work.now }
    {
        if i < self.row_len(j).at {
            return self.item(j, Item { at: i });
        }
        self.state.alloc(&mut *self.words)
    }

    // Pours so many flat slots into the row's nodes from k on, and new ones after them; they go up after the first out.
    #[tactic(auto, using(crate::specs::Packs::pour_at, crate::specs::Packs::pour_end), unfolding(crate::specs::Packs::pour_in))]
    fn pour_in(&mut self, j: Row, k: InRow, total: Spot, out: Rising) -> usize
        ensures { Packs self.old self.new result (on pour_in self.old j.at k.at total.at out.at) }
    {
        let n = total.at.div_ceil(32);
        for i in 0..n {
            let b = self.block_for(j, k.at + i);
            let m = Count {
                at: (total.at - i * 32).min(32),
            };
            let t = Spot { at: i * 32 };
            write_node(&mut *self.words, &mut *self.work, b, t, m, j);
            let up = out.at + i;
            self.put(Entry::Raised(Spot { at: up }), b as u64);
        }
        out.at + n
    }

    // Releases the nodes of row j from k on.
    #[tactic(auto, using(crate::specs::Packs::release_at, crate::specs::Packs::release_end), unfolding(crate::specs::Packs::release_items))]
    fn release_items(&mut self, j: Row, k: usize)
        ensures { Holds self.old self.new (on release_items self.old j.at k).0 (on release_items self.old j.at k).1 self.old.work.now }
    {
        for at in k..self.row_len(j).at {
            let b = self.item(j, Item { at });
            self.state.release(&mut *self.words, b);
        }
    }

    // Pours so many flat slots as above, after what is left over of the row's nodes was released.
    #[tactic(auto, unfolding(crate::specs::Packs::pour_of))]
    fn pour(&mut self, j: Row, k: InRow, total: Spot, out: Rising) -> usize
        ensures { Packs self.old self.new result (on pour_of self.old j.at k.at total.at out.at) }
    {
        self.release_items(j, k.at + total.at.div_ceil(32));
        self.pour_in(j, k, total, out)
    }

    // The first k nodes of row j go up, and after them new nodes of the c from below.
    #[tactic(auto, unfolding(crate::specs::Packs::raise_nodes))]
    fn raise_nodes(&mut self, j: Row, k: InRow, c: Raised)
        ensures { Becomes self.old self.new (on raise_nodes self.old j.at k.at c.at) }
    {
        let n = self.row_len(j);
        self.lay_nodes(Gap { at: 0, len: c });
        self.keep(j, 0, k, Rising { at: 0 });
        self.pour_in(j, n, Spot { at: c.at }, Rising { at: k.at });
    }

    // The nodes k..l of row j go up after the first out, and after them what the others are poured into.
    #[tactic(auto, unfolding(crate::specs::Packs::raise_rest))]
    fn raise_rest(&mut self, j: Row, k: InRow, l: InRow, out: Raised) -> usize
        requires { k.at ≤ l.at }
        ensures { Packs self.old self.new result (on raise_rest self.old j.at k.at l.at out.at) }
    {
        self.keep(j, k.at, l, Rising { at: out.at });
        let none = Raised { at: 0 };
        let t = self.pour_out(j, l, Gap { at: 0, len: none });
        let kept = out.at + (l.at - k.at);
        self.pour(j, l, t, Rising { at: kept })
    }

    // The c nodes from below go whole between the first k nodes of row j and the others, of which full ones stay whole.
    #[tactic(auto, unfolding(crate::specs::Packs::insert_whole))]
    fn insert_whole(&mut self, j: Row, k: InRow, c: Raised) -> usize
        ensures { Packs self.old self.new result (on insert_whole self.old j.at k.at c.at) }
    {
        let l = self.leading(j, k, self.row_len(j));
        self.raise_nodes(j, k, c);
        let out = k.at + c.at.div_ceil(32);
        self.raise_rest(j, k, l, Raised { at: out })
    }

    // The nodes from below go into a gap between the slots after those of the first k nodes of row j, and all from there on is poured.
    #[tactic(auto, unfolding(crate::specs::Packs::insert_poured))]
    fn insert_poured(&mut self, j: Row, k: InRow, gap: Gap) -> usize
        ensures { Packs self.old self.new result (on insert_poured self.old j.at k.at gap.at gap.len.at) }
    {
        self.lay_nodes(gap);
        let t = self.pour_out(j, k, gap);
        self.keep(j, 0, k, Rising { at: 0 });
        self.pour(j, k, t, Rising { at: k.at })
    }

    // Puts the first nodes from below, c of them and 64 at most, at the place of row j. The nodes of that height go up.
    #[tactic(auto, unfolding(crate::specs::Packs::insert_of))]
    pub(crate) fn insert(&mut self, j: Row, c: usize) -> usize
        ensures { Packs self.old self.new result (on insert_of self.old j.at c) }
    {
        let d = Raised { at: c.min(64) };
        let p = self.row_place(j);
        let end = InRow {
            at: self.row_len(j).at.min(p / 32),
        };
        let k = self.leading(j, InRow { at: 0 }, end);
        if stays_whole(k, p, d) {
            return self.insert_whole(j, k, d);
        }
        let at = p - k.at * 32;
        self.insert_poured(j, k, Gap { at, len: d })
    }

    // Packs the nodes of row j: full ones at the start stay whole, the others are poured.
    #[tactic(auto, unfolding(crate::specs::Packs::squeeze_of, crate::specs::Areas::set_row_len))]
    pub(crate) fn squeeze(&mut self, j: Row)
        ensures { Becomes self.old self.new (on squeeze_of self.old j.at) }
    {
        let n = self.insert_whole(j, InRow { at: 0 }, Raised { at: 0 });
        self.put(Entry::Len(j), n as u64);
    }
}
