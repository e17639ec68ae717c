// The lent work area: a row of nodes for each height, the nodes from below, and slots laid flat.
ghost use Rattle.std.specs.Prelude.{◌≡◌, ◌+◌, ◌-◌, ◌<◌, ◌≤◌, length, replicate, slice_index, slice_range, slice_set, MatchOption};
ghost use Rattle.std.proofs.lemmas.List.Edits.{sets};
ghost use Rattle.merging.specs.Areas.{entry_at, row_len, row_place, item_of, add_item, node_at, flat_at};
ghost use Rattle.merging.specs.Lent.{Stores};
ghost use Rattle.merging.specs.Packs.{next_flat, lay_nodes, keep_of};

use crate::Lent;
use levels::{Below, Count};
use node::Slots;

// A row for each of 50 heights: its length, its place, at most 62 nodes.
pub const ROWS: usize = 50;

pub const WIDTH: usize = 64;

// At most 64 nodes or elements from below.
pub const NODES: usize = 3200;

// At most 2,048 slots.
pub const FLAT: usize = 3264;

pub const WORK: usize = 5312;

// A row, by its height.
pub type Row = Below<ROWS>;

// A node of a row.
pub type Item = Below<62>;

// A number of nodes of a row.
pub type InRow = Below<63>;

// A number of nodes or elements that came from below, or of nodes that went up.
pub type Raised = Below<65>;

// A number of nodes that go up: 200 at most, more than ever do.
pub type Rising = Below<201>;

// A place among the nodes that go up or the flat slots, or past them: so small that no sum of places overflows.
pub type Spot = Below<200001>;

// A word of the area, by what it holds.
#[derive(Clone, Copy)]
pub enum Entry {
    Len(Row),
    Place(Row),
    Node(Row, Item),
    Raised(Spot),
    Flat(Spot),
}

impl Entry {
    // The word's place in the area.
    fn at(self) -> usize
        ensures { result ≡ entry_at self }
    {
        match self {
            Entry::Len(j) => j.at * WIDTH,
            Entry::Place(j) => j.at * WIDTH + 1,
            Entry::Node(j, i) => j.at * WIDTH + 2 + i.at,
            Entry::Raised(t) => NODES + t.at,
            Entry::Flat(t) => FLAT + t.at,
        }
    }
}

// A gap among the flat slots: so many for the nodes from below, from slot `at` on.
#[derive(Clone, Copy)]
pub struct Gap {
    pub at: usize,
    pub len: Raised,
    ghost in_row: { at ≤ 2048 },
}

impl Gap {
    // The flat slot t, or the one past the gap where that begins there.
    #[tactic(auto, unfolding(crate::specs::Packs::next_flat))]
    pub(crate) fn past(self, t: Spot) -> usize
        ensures next { result ≡ next_flat t.at self.at self.len.at }
        ensures near { result ≤ t.at + self.len.at }
    {
        if t.at == self.at {
            return t.at + self.len.at;
        }
        t.at
    }
}

// The whole area zero.
pub fn clear(work: &mut [u64])
    ensures { work.new ≡ replicate (length work.old) 0 }
{
    work.fill(0);
}

// The m flat slots from t on, where they are there.
pub(crate) fn flat<'a>(work: &'a [u64], t: Spot, m: Count) -> Option<Slots<'a>>
    ensures { MatchOption result (length work.now < flat_at t.at + m.at) (λ s. (flat_at t.at + m.at ≤ length work.now) × (s.words.now ≡ slice_range work.now (flat_at t.at) (flat_at t.at + m.at))) }
{
    let start = Entry::Flat(t).at();
    let words = work.get(start..start + m.at)?;
    Some(Slots { words })
}

// Words go up, after the first out.
pub(crate) fn lift(work: &mut [u64], src: Slots<'_>, out: Count)
    ensures { work.new ≡ sets work.old (node_at out.at) src.entry.words.now }
{
    let start = Entry::Raised(Spot { at: out.at }).at();
    node::leaf_merge(work, start, src.words);
}

impl Lent<'_, '_> {
    // The whole area zero.
    pub(crate) fn clear_area(&mut self)
        ensures { Stores self.old self.new (replicate (length self.old.work.now) 0) }
    {
        clear(&mut *self.work);
    }

    // A word of the area; 0 past its end.
    pub(crate) fn get(&self, e: Entry) -> u64
        ensures { result ≡ slice_index self.now.work.now (entry_at e) }
    {
        self.work.get(e.at()).copied().unwrap_or(0)
    }

    // Stores a word of the area; past its end nothing.
    pub(crate) fn put(&mut self, e: Entry, x: u64)
        ensures { Stores self.old self.new (slice_set self.old.work.now (entry_at e) x) }
    {
        node::leaf_add(&mut *self.work, e.at(), x);
    }

    // The nodes in row j.
    pub(crate) fn row_len(&self, j: Row) -> InRow
        ensures { result.at ≡ row_len self.now.work.now j.at }
    {
        InRow {
            at: (self.get(Entry::Len(j)) as usize).min(62),
        }
    }

    // The slots of row j before which the nodes from below go.
    pub(crate) fn row_place(&self, j: Row) -> usize
        ensures { result ≡ row_place self.now.work.now j.at }
    {
        (self.get(Entry::Place(j)) as usize).min(2048)
    }

    // Node i of row j.
    #[tactic(auto, unfolding(crate::specs::Areas::item_of))]
    pub(crate) fn item(&self, j: Row, i: Item) -> usize
        ensures { result ≡ item_of self.now.work.now j.at i.at }
    {
        self.get(Entry::Node(j, i)) as usize
    }

    // Adds block b to row j, while there is room.
    #[tactic(auto, unfolding(crate::specs::Areas::add_item, crate::specs::Areas::set_row_len))]
    pub(crate) fn add_item(&mut self, j: Row, b: usize)
        ensures { Stores self.old self.new (add_item self.old.work.now j.at b) }
    {
        let n = self.row_len(j).at;
        if n < 62 {
            self.put(Entry::Node(j, Item { at: n }), b as u64);
            self.put(Entry::Len(j), (n + 1) as u64);
        }
    }

    // The first nodes from below become the flat slots of the gap.
    #[tactic(auto, using(crate::specs::Packs::lay_at, crate::specs::Packs::lay_end))]
    pub(crate) fn lay_nodes(&mut self, gap: Gap)
        ensures { Stores self.old self.new (lay_nodes self.old.work.now gap.at gap.len.at 0) }
    {
        for i in 0..gap.len.at {
            let x = self.get(Entry::Raised(Spot { at: i }));
            self.put(Entry::Flat(Spot { at: gap.at + i }), x);
        }
    }

    // The nodes k..end of row j go up, after the first out.
    #[tactic(auto, using(crate::specs::Packs::keep_at, crate::specs::Packs::keep_end))]
    pub(crate) fn keep(&mut self, j: Row, k: usize, end: InRow, out: Rising)
        ensures { Stores self.old self.new (keep_of self.old.work.now j.at (end.at - k) k out.at) }
    {
        for at in k..end.at {
            let b = self.item(j, Item { at });
            let up = out.at + (at - k);
            self.put(Entry::Raised(Spot { at: up }), b as u64);
        }
    }
}
