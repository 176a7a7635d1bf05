// The answer: what an acceptance counts, a case for each kind of refusal of document 01, and the numbers of both as they
// cross to other languages. `verdict_of` promises the numbers of every case.
// Which answer it is, is left to those who test.
#![tactic(auto)]

pub mod verdict;

// How many operands, iterators and handlers there are at a place.
#[derive(Clone, Copy, PartialEq, Eq)]
pub struct Depths {
    pub operands: u32,
    pub iterators: u32,
    pub handlers: u32,
}

// What an acceptance counts: the instructions of the code, those reached, and the items taken.
#[derive(Clone, Copy, PartialEq, Eq)]
pub struct Accepted {
    pub instructions: u64,
    pub reached: u64,
    pub taken: u64,
}

// The buffers, by the numbers that kind 3 gives them.
#[derive(Clone, Copy, PartialEq, Eq)]
pub enum Buffer {
    Marks = 1,
    Heights = 2,
    Records = 3,
    Work = 4,
}

// A refusal, a case for each kind of document 01 from 1 on, in the order of their numbers. What the document numbers is
// kept as its number: `verdict_of` and the tests of `before` answer for any.
#[derive(Clone, Copy, PartialEq, Eq)]
pub enum Refusal {
    TooLarge(u64),
    BadTable {
        table: u64,
        entry: u64,
    },
    NoRoom {
        needed: u64,
        buffer: u64,
    },
    MissingCaps {
        at: u64,
        missing: u32,
    },
    Undecodable(u64),
    BadIndex {
        at: u64,
        index: u32,
        pool: u64,
    },
    ChunkOutOfRange {
        entry: u32,
        end: u32,
    },
    Misaligned(u32),
    JumpOutOfRange {
        at: u64,
        target: u32,
    },
    JumpIntoAnInstruction {
        at: u64,
        target: u32,
    },
    DepthConflict {
        at: u64,
        expected: Depths,
        found: Depths,
    },
    Underflow {
        at: u64,
        need: u32,
        have: u32,
    },
    FallsOffTheEnd,
    StackExceedsDeclared {
        needed: u32,
        declared: u16,
    },
    IteratorUnderflow(u64),
    HandlerUnderflow(u64),
}

// The answer: accepted with these counts, or refused.
pub type Answer = Result<Accepted, Refusal>;
