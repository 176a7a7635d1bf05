// One item of a chunk's walk taken, and the two ends of the walk.
// Taking an item is one turn of the definition of the walk, and its contract fixes every word of records and work.
// Left to `judging`: the loops over items and chunks.
#![tactic(auto)]

pub mod chunk;
pub mod item;

use answer::Depths;

// What a walk has counted: the instructions entered, the items taken, and the largest number of operands.
#[derive(Clone, Copy, Default)]
pub struct Counts {
    pub reached: u64,
    pub taken: u64,
    pub height: u32,
}

// The item in hand, and what one item hands to the next: what is counted so far; how many keys are below the place; how
// many items wait in work; the place, and the depths there. The counts come first, where `Turn::Done` has them too:
// elsewhere each turn packs numbers into shared words, and a walk over straight code takes a sixth longer.
#[derive(Clone, Copy)]
pub struct Hand {
    pub counts: Counts,
    pub slot: usize,
    pub waiting: usize,
    pub place: u32,
    pub depths: Depths,
}

// What taking an item comes to: the next one in hand; or none is left, and these are the counts. Neither is an error, so
// it is no Result; the refusal is.
#[derive(Clone, Copy)]
pub enum Turn {
    Next(Hand),
    Done(Counts),
}

// The depths at the entry of a chunk, and those in the words of an item that was taken.
const NO_DEPTHS: Depths = Depths {
    operands: 0,
    iterators: 0,
    handlers: 0,
};
