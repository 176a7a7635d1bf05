// The rights bits that the code asks for by name, with document 01's numbers. The others stand in the words of the tags
// that ask for them (shapes), or in the words that a caller lends for its constants. They stay bits of a number: the C
// interface takes and answers them so.

pub const FUNCTION: u32 = 0x0001;

pub const THIS: u32 = 0x0002;

pub const INDEXING: u32 = 0x0004;

pub const PROPERTY: u32 = 0x0008;

pub const METHOD: u32 = 0x0010;

pub const MODULE: u32 = 0x2000;

// Above the bits: what else decides, once this number for the flag of the name that the instruction names, twice for
// its chain.
pub const NAMED: u32 = 0x4000;
