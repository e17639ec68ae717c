// Levels and places of a tree.
#![tactic(auto)]

ghost use Rattle.std.specs.Prelude.{◌≡◌, ◌+◌, ◌-◌, ◌*◌, ◌/◌, ◌<◌, ◌≤◌, min, eqb, leb};
ghost use Rattle.levels.specs.Place.{child_of, element_of, room_for};

// A number below N.
#[derive(Clone, Copy)]
pub struct Below<const N: usize> {
    pub at: usize,
    ghost below: { at < N },
}

// A slot of a node.
pub type Slot = Below<32>;

// A number of slots of a node.
pub type Count = Below<33>;

impl Slot {
    // How many slots stand before it.
    pub fn before(self) -> Count
        ensures { result.at ≡ self.at }
    {
        Count { at: self.at }
    }
}

// A level: 0 at a leaf, and 5 more per level above.
#[derive(Clone, Copy)]
pub struct Shift(pub u32);

// A place among the elements below a node.
#[derive(Clone, Copy)]
pub struct Index(pub usize);

impl Shift {
    pub const LEAF: u32 = 0;

    pub const STEP: u32 = 5;

    pub const SLOTS: usize = 32;

    // A tree in 1,048,576 blocks has at most 47 levels above its leaves.
    pub const TALLEST: u32 = 235;

    pub fn leaf() -> Self
        ensures { result.0 ≡ 0 }
    {
        Shift(Shift::LEAF)
    }

    // One level up.
    pub fn inc(self) -> Self
        requires { self.0 ≤ 235 }
        ensures { result.0 ≡ self.0 + 5 }
    {
        Shift(self.0 + Shift::STEP)
    }

    // One level down; at the bottom it stays there.
    pub fn dec(self) -> Self
        ensures { result.0 ≡ self.0 - 5 }
    {
        Shift(self.0.saturating_sub(Shift::STEP))
    }

    pub fn is_leaf_level(self) -> bool
        ensures { result ≡ eqb self.0 0 }
    {
        self.0 == Shift::LEAF
    }

    pub fn is_level_with_leaves(self) -> bool
        ensures { result ≡ eqb self.0 5 }
    {
        self.0 == Shift::STEP
    }

    // Whether a tree in the largest pool can have this level.
    pub fn is_in_range(self) -> bool
        ensures { result ≡ leb self.0 235 }
    {
        self.0 <= Shift::TALLEST
    }

    // How many levels above the leaves.
    pub fn height(self) -> usize
        ensures { result ≡ self.0 / 5 }
    {
        (self.0 / Shift::STEP) as usize
    }

    // The level so many levels above the leaves, 48 at most.
    pub fn at(height: usize) -> Self
        ensures { result.0 ≡ min height 48 * 5 }
    {
        Shift(height.min(48) as u32 * Shift::STEP)
    }
}

impl Index {
    // The child slot of the place at a level.
    pub fn child(self, shift: Shift) -> Slot
        ensures { result.at ≡ child_of self.0 shift.0 }
    {
        if shift.0 < 64 {
            return Slot {
                at: (self.0 >> shift.0) & 31,
            };
        }
        Slot { at: 0 }
    }

    // The slot in a leaf.
    pub fn element(self) -> Slot
        ensures { result.at ≡ element_of self.0 }
    {
        self.child(Shift::leaf())
    }

    // The place counted from a slot that has so many elements before it.
    pub fn less(self, before: usize) -> Self
        ensures { result.0 ≡ self.0 - before }
    {
        Index(self.0.saturating_sub(before))
    }

    // Whether a dense branch at a level can have an element at the place.
    pub fn has_room(self, shift: Shift) -> bool
        ensures { result ≡ room_for self.0 shift.0 }
    {
        if shift.0 < 59 {
            return self.0 >> (shift.0 + Shift::STEP) == 0;
        }
        true
    }
}
