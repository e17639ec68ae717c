// Append's merge of two trees in place: down both spines, only freeing blocks; up again, only taking blocks.
#![tactic(auto)]

ghost use Rattle.std.specs.Prelude.{◌≡◌};

mod areas;
mod merges;
mod packs;
mod plans;
mod spines;

pub use areas::{WORK, clear};
use blocks::{Block, State};
pub use merges::{Merged, merge};
pub use plans::held_after;
pub use spines::{Pair, Side, pair_of};

// What a merge is lent: a pool's words, the state record, and a work area.
#[derive(Drop)]
pub(crate) struct Lent<'p, 'w> {
    pub words: &'p mut [u64],
    pub state: State,
    pub work: &'w mut [u64],
}

impl Lent<'_, '_> {
    fn words(&self) -> &[u64]
        ensures { result.now ≡ self.now.words.now }
    {
        self.words
    }

    fn block(&self, number: usize) -> Block<'_>
        ensures pool { result.pool.now ≡ self.now.words.now }
        ensures number { result.number ≡ number }
    {
        Block::new(self.words, number)
    }
}
