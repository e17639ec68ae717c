// What the words of a block are, and the kinds of block.
ghost use Rattle.std.specs.Prelude.{◌≡◌, ◌<◌};
ghost use Rattle.blocks.specs.Fields.{place_of, number_of, kind_at};

use crate::{COUNT, KIND, SIZES, SLOTS};
use levels::Slot;

// A word of a block, by what it holds.
#[derive(Clone, Copy)]
pub enum Field {
    Kind,
    Count,
    Slot(Slot),
    Size(Slot),
}

impl Field {
    // The word's place in its block.
    pub fn place(self) -> usize
        ensures place { result ≡ place_of self }
        ensures inside { result < 66 }
    {
        match self {
            Field::Kind => KIND,
            Field::Count => COUNT,
            Field::Slot(i) => SLOTS + i.at,
            Field::Size(i) => SIZES + i.at,
        }
    }
}

// What a block is. A word that is no kind's is none that calls make.
#[derive(Clone, Copy, PartialEq, Eq)]
pub enum Kind {
    Free,
    Leaf,
    Branch,
    Relaxed,
    Other(u64),
}

impl From<u64> for Kind {
    ghost from_gives = { λ word kind. kind ≡ kind_at word };

    fn from(word: u64) -> Self {
        match word {
            0 => Kind::Free,
            1 => Kind::Leaf,
            2 => Kind::Branch,
            3 => Kind::Relaxed,
            _ => Kind::Other(word),
        }
    }
}

impl From<Kind> for u64 {
    ghost from_gives = { λ kind word. word ≡ number_of kind };

    fn from(kind: Kind) -> Self {
        match kind {
            Kind::Free => 0,
            Kind::Leaf => 1,
            Kind::Branch => 2,
            Kind::Relaxed => 3,
            Kind::Other(word) => word,
        }
    }
}
