// Blocks of 66 words in a lent pool, and the chain of the free ones.
#![tactic(auto)]

mod fields;
mod pools;
mod views;

ghost use Rattle.std.specs.Prelude.{◌≡◌, ◌/◌, length};
ghost use Rattle.blocks.specs.Words.{put_of};
ghost use Rattle.blocks.specs.Fields.{place_of};
ghost use Rattle.blocks.specs.Chain.{alloc_of, on_chain, release_of, chained_of, free_count_of};

pub use fields::{Field, Kind};
pub use pools::Pool;
pub use views::Block;

// The words of a block: its kind, its count, 32 children or elements, 32 sizes.
pub const WORDS: usize = 66;

pub const KIND: usize = 0;

pub const COUNT: usize = 1;

pub const SLOTS: usize = 2;

pub const SIZES: usize = 34;

// The small state record: the first free block (the number of blocks where there is none), and the promised total.
#[repr(C)]
#[derive(Clone, Copy)]
pub struct State {
    pub free: u64,
    pub promised: u64,
}

impl State {
    // Takes the first block off the chain.
    #[tactic(auto, unfolding(crate::specs::Chain::alloc_of))]
    pub fn alloc(&mut self, pool: &[u64]) -> usize
        ensures block { result ≡ (alloc_of pool.now self.old).block }
        ensures state { self.new ≡ (alloc_of pool.now self.old).state }
    {
        let b = self.free as usize;
        self.free = Block::new(pool, b).word(Field::Count);
        b
    }

    // Puts block b on the chain.
    #[tactic(auto, unfolding(crate::specs::Chain::release_of))]
    pub fn release(&mut self, pool: &mut [u64], b: usize)
        ensures state { self.new ≡ on_chain self.old b }
        ensures words { pool.new ≡ release_of pool.old self.old b }
    {
        put(pool, b, Field::Kind, Kind::Free.into());
        put(pool, b, Field::Count, self.free);
        self.free = b as u64;
    }
}

// How many blocks a pool has.
pub fn total(pool: &[u64]) -> usize
    ensures { result ≡ length pool.now / 66 }
{
    pool.len() / WORDS
}

// Stores a word of block b; where there is no such block nothing.
#[tactic(auto, unfolding(crate::specs::Words::put_of))]
pub fn put(pool: &mut [u64], b: usize, f: Field, x: u64)
    ensures { pool.new ≡ put_of pool.old b (place_of f) x }
{
    if b < pool.len() / WORDS {
        pool[b * WORDS + f.place()] = x;
    }
}

// Puts all blocks on the chain, in order.
#[tactic(auto, using(crate::specs::Chain::chained_more), unfolding(crate::specs::Chain::chained_of))]
pub fn free_all(pool: &mut [u64])
    ensures { pool.new ≡ chained_of pool.old (length pool.old / 66) }
{
    for b in 0..total(pool) {
        put(pool, b, Field::Kind, Kind::Free.into());
        put(pool, b, Field::Count, (b + 1) as u64);
    }
}

// The blocks along the chain: as many as the pool has, at most.
#[tactic(auto, using(crate::specs::Chain::chain_more, crate::specs::Chain::chain_out, crate::specs::Chain::chain_end), unfolding(crate::specs::Chain::free_count_of))]
pub fn free_count(pool: &[u64], st: State) -> usize
    ensures { result ≡ free_count_of pool.now (length pool.now / 66) st.free }
{
    let n = total(pool);
    let mut b = st.free as usize;
    for k in 0..n {
        if n <= b {
            return k;
        }
        b = Block::new(pool, b).word(Field::Count) as usize;
    }
    n
}
