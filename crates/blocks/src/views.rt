// One block of a pool, as readers see it.
ghost use Rattle.std.specs.Prelude.{◌≡◌, ◌==◌};
ghost use Rattle.blocks.specs.Words.{word_of, kind_of, count_of, last_of, slot_of, size_of};
ghost use Rattle.blocks.specs.Fields.{place_of, kind_at};
ghost use Rattle.blocks.specs.Views.{read};

use crate::{Field, Kind, WORDS};
use levels::Slot;

// A block of a pool, by its number. There need be no such block: its words are then 0.
#[derive(Clone, Copy)]
pub struct Block<'a> {
    pub pool: &'a [u64],
    pub number: usize,
}

impl<'a> Block<'a> {
    // The block of a number.
    pub fn new(pool: &'a [u64], number: usize) -> Self
        ensures pool { result.pool.now ≡ pool.now }
        ensures number { result.number ≡ number }
    {
        Block { pool, number }
    }

    // A word of the block.
    #[tactic(auto, unfolding(crate::specs::Words::word_of))]
    pub fn word(self, f: Field) -> u64
        ensures { result ≡ read word_of self.entry (place_of f) }
    {
        if self.number < self.pool.len() / WORDS {
            return self.pool[self.number * WORDS + f.place()];
        }
        0
    }

    pub fn kind(self) -> Kind
        ensures { result ≡ kind_at (read kind_of self.entry) }
    {
        Kind::from(self.word(Field::Kind))
    }

    // By the word: to make a kind of it first would cost more, at each node of a walk.
    pub fn is_relaxed(self) -> bool
        ensures { result ≡ (read kind_of self.entry == 3) }
    {
        self.word(Field::Kind) == Kind::Relaxed.into()
    }

    // The slots in use: 32 at most.
    pub fn count(self) -> usize
        ensures { result ≡ read count_of self.entry }
    {
        (self.word(Field::Count) as usize).min(32)
    }

    // The last slot in use.
    pub fn last(self) -> Slot
        ensures { result.at ≡ read last_of self.entry }
    {
        Slot {
            at: self.count().saturating_sub(1),
        }
    }

    pub fn slot(self, i: Slot) -> u64
        ensures { result ≡ read slot_of self.entry i.at }
    {
        self.word(Field::Slot(i))
    }

    // The block whose number stands in a slot.
    pub fn child(self, i: Slot) -> Self
        ensures pool { result.pool.now ≡ self.entry.pool.now }
        ensures number { result.number ≡ read slot_of self.entry i.at }
    {
        Block {
            number: self.slot(i) as usize,
            ..self
        }
    }

    pub fn size(self, i: Slot) -> usize
        ensures { result ≡ read size_of self.entry i.at }
    {
        self.word(Field::Size(i)) as usize
    }
}
