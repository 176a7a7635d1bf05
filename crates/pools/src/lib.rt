// The lent pools, before anything reads them: few enough of everything (`limits`), and tables whose entries are whole
// and good (`tables`). Every answer is fixed by the counts or the words, whatever they are. Who comes after may rely on
// it that each span of an entry lies within its table. Which names and constants an entry may name is left to
// `indices`.
#![tactic(auto)]

pub mod limits;
pub mod tables;

// Words of an entry.
pub const CHAIN_WORDS: usize = 7;

pub const STEP_WORDS: usize = 4;

pub const SWITCH_WORDS: usize = 5;

pub const CASE_WORDS: usize = 2;

// Everything that is lent but the code: a rights word for each constant, a flag for each name, how many tokens and
// op-assignments there are, and five tables of words.
#[derive(Clone, Copy)]
pub struct Pools<'a> {
    pub constants: &'a [u32],
    pub names: &'a [u8],
    pub tokens: usize,
    pub op_assignments: usize,
    pub chains: &'a [u32],
    pub steps: &'a [u32],
    pub switches: &'a [u32],
    pub cases: &'a [u32],
    pub ranges: &'a [u32],
}
