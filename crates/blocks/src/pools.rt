// A lent pool with its state record: taking a block off the chain, and putting one back.
ghost use Rattle.std.specs.Prelude.{◌≡◌};
ghost use Rattle.blocks.specs.Words.{put_of};
ghost use Rattle.blocks.specs.Fields.{place_of};
ghost use Rattle.blocks.specs.Chain.{alloc_of, on_chain, release_of};
ghost use Rattle.blocks.specs.Pools.{on, Leaves, Gives};

use crate::{Block, Field, State};

// The words of a lent pool, and its state record.
#[derive(Drop)]
pub struct Pool<'a> {
    pub words: &'a mut [u64],
    pub state: State,
}

impl Pool<'_> {
    // The words, to be read.
    pub fn words(&self) -> &[u64]
        ensures { result.now ≡ self.now.words.now }
    {
        self.words
    }

    // A block, to be read.
    pub fn block(&self, number: usize) -> Block<'_>
        ensures pool { result.pool.now ≡ self.now.words.now }
        ensures number { result.number ≡ number }
    {
        Block::new(self.words, number)
    }

    // Stores a word of block b.
    pub fn put(&mut self, b: usize, f: Field, x: u64)
        ensures { Leaves self.old self.new self.old.state (put_of self.old.words.now b (place_of f) x) }
    {
        crate::put(&mut *self.words, b, f, x);
    }

    // Takes the first block off the chain.
    pub fn alloc(&mut self) -> usize
        ensures { Gives self.old self.new result (on alloc_of self.old, self.old.words.now) }
    {
        self.state.alloc(&mut *self.words)
    }

    // Puts block b on the chain.
    pub fn release(&mut self, b: usize)
        ensures { Leaves self.old self.new (on_chain self.old.state b) (on release_of self.old b) }
    {
        self.state.release(&mut *self.words, b);
    }
}
