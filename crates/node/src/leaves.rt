// Leaves: the 32 element words of a block are lent on as a part of the pool.
ghost use Rattle.std.specs.Prelude.{◌≡◌, ◌≤◌, length, slice_set};
ghost use Rattle.std.proofs.lemmas.List.Edits.{sets};
ghost use Rattle.blocks.specs.Words.{count_of};
ghost use Rattle.blocks.specs.Chain.{alloc_of};
ghost use Rattle.blocks.specs.Views.{read};
ghost use Rattle.blocks.specs.Pools.{on, Gives};
ghost use Rattle.node.specs.Leaves.{slots_from, store_of, leaf_of, take_of};

use blocks::{Block, Field, Kind, Pool};

// Words for the slots of a node.
#[derive(Clone, Copy)]
pub struct Slots<'a> {
    pub words: &'a [u64],
    ghost fits: { length words.now ≤ 32 },
}

// Stores x as word i of the part; past its end nothing.
pub fn leaf_add(part: &mut [u64], i: usize, x: u64)
    ensures { part.new ≡ slice_set part.old i x }
{
    if i < part.len() {
        part[i] = x;
    }
}

// Stores the words of src after the first n of the part, as many as there is room for.
#[tactic(auto, using(crate::specs::Leaves::sets_out))]
pub fn leaf_merge(part: &mut [u64], n: usize, src: &[u64])
    ensures { part.new ≡ sets part.old n src.now }
{
    if n < part.len() {
        for (i, x) in src.iter().enumerate() {
            leaf_add(part, n + i, *x);
        }
    }
}

// The first slots of block b become the words of src.
#[tactic(auto, using(crate::specs::Leaves::store_in, crate::specs::Leaves::store_out, crate::specs::Leaves::part_back))]
pub fn slots_fill(pool: &mut [u64], b: usize, src: Slots<'_>)
    ensures { pool.new ≡ store_of pool.old b 2 src.entry.words.now }
{
    if b < blocks::total(pool) {
        let start = b * blocks::WORDS + blocks::SLOTS;
        let end = start + 32;
        leaf_merge(&mut pool[start..end], 0, src.words);
    }
}

// A new leaf of the words of src.
#[tactic(auto, unfolding(crate::specs::Leaves::leaf_of, blocks::specs::Chain::alloc_of))]
pub fn leaf_new(pool: &mut Pool<'_>, src: Slots<'_>) -> usize
    ensures { Gives pool.old pool.new result (on alloc_of pool.old, leaf_of pool.old.words.now pool.old.state.free src.entry.words.now) }
{
    let b = pool.alloc();
    slots_fill(&mut *pool.words, b, src);
    pool.put(b, Field::Kind, Kind::Leaf.into());
    pool.put(b, Field::Count, src.words.len() as u64);
    b
}

// The slots in use of block b.
#[tactic(auto, using(crate::specs::Leaves::slots_in, crate::specs::Leaves::slots_out))]
pub fn in_use<'a>(b: Block<'a>) -> Slots<'a>
    ensures { result.words.now ≡ read slots_from b.entry 0 (read count_of b.entry) }
{
    if b.number < blocks::total(b.pool) {
        let start = b.number * blocks::WORDS + blocks::SLOTS;
        return Slots {
            words: &b.pool[start..start + b.count()],
        };
    }
    Slots { words: &[] }
}

// The elements of a leaf, and zeros after them.
pub fn leaf_take(b: Block<'_>) -> [u64; 32]
    ensures { result ≡ read take_of b.entry }
{
    let elements = in_use(b).words;
    let mut out = [0u64; 32];
    out[..elements.len()].copy_from_slice(elements);
    out
}
