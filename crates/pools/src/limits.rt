// The limits: the most that there may be of everything that is lent.
ghost use Rattle.std.specs.Prelude.{◌≡◌, ltb};
ghost use Rattle.pools.specs.Lent.{pools_of};
ghost use Rattle.pools.specs.Sizes.{sizes_with, tells, first_exceeded};
ghost use Rattle.pools.specs.Answers.{limit_number, limits_told};

use super::{CASE_WORDS, CHAIN_WORDS, Pools, STEP_WORDS, SWITCH_WORDS};

// How many there are of each, tables by whole entries.
#[derive(Clone, Copy)]
pub struct Sizes {
    pub code: usize,
    pub constants: usize,
    pub names: usize,
    pub tokens: usize,
    pub op_assignments: usize,
    pub steps: usize,
    pub cases: usize,
    pub ranges: usize,
    pub chains: usize,
    pub switches: usize,
    pub chunks: usize,
}

impl Sizes {
    // Those of all that is lent, where there is so much code, and so many chunks.
    pub fn of(code: usize, pools: &Pools<'_>, chunks: usize) -> Sizes
        ensures { result ≡ sizes_with code (pools_of pools.now) chunks }
    {
        Sizes {
            code,
            constants: pools.constants.len(),
            names: pools.names.len(),
            tokens: pools.tokens,
            op_assignments: pools.op_assignments,
            steps: pools.steps.len() / STEP_WORDS,
            cases: pools.cases.len() / CASE_WORDS,
            ranges: pools.ranges.len(),
            chains: pools.chains.len() / CHAIN_WORDS,
            switches: pools.switches.len() / SWITCH_WORDS,
            chunks,
        }
    }
}

// What has a limit, in the order of the tests. As a number it is the one that is told where its limit is exceeded.
#[derive(Clone, Copy, PartialEq, Eq)]
pub enum Limit {
    Code = 1,
    Constants = 2,
    Names = 3,
    Tokens = 4,
    OpAssignments = 5,
    Steps = 6,
    Cases = 7,
    Ranges = 8,
    Chains = 9,
    Switches = 10,
    Chunks = 11,
}

impl From<Limit> for u64 {
    ghost from_gives = { λ limit number. number ≡ limit_number limit };

    #[tactic(auto, using(crate::proofs::Numbers::limit_numbered))]
    fn from(limit: Limit) -> u64 {
        limit as u64
    }
}

// The most bytes of code.
pub const MAX_CODE: usize = 65536;

// The most constants, names, tokens, op-assignments, steps, cases, ranges, of each.
const MAX_ENTRIES: usize = 65536;

const MAX_CHAINS: usize = 4096;

const MAX_SWITCHES: usize = 4096;

const MAX_CHUNKS: usize = 1024;

// Is a count within its limit, the most that there may be?
#[tactic(auto, unfolding(crate::specs::Answers::limits_told, crate::specs::Sizes::tells))]
fn at_most(count: usize, most: usize, limit: Limit) -> Result<(), Limit>
    ensures { limits_told result ≡ tells (limit_number limit, ltb most count) }
{
    if count <= most { Ok(()) } else { Err(limit) }
}

// Is there more of anything than its limit allows? The first limit that is exceeded is told.
pub fn check_limits(sizes: Sizes) -> Result<(), Limit>
    ensures { limits_told result ≡ first_exceeded sizes }
{
    at_most(sizes.code, MAX_CODE, Limit::Code)?;
    at_most(sizes.constants, MAX_ENTRIES, Limit::Constants)?;
    at_most(sizes.names, MAX_ENTRIES, Limit::Names)?;
    at_most(sizes.tokens, MAX_ENTRIES, Limit::Tokens)?;
    at_most(sizes.op_assignments, MAX_ENTRIES, Limit::OpAssignments)?;
    at_most(sizes.steps, MAX_ENTRIES, Limit::Steps)?;
    at_most(sizes.cases, MAX_ENTRIES, Limit::Cases)?;
    at_most(sizes.ranges, MAX_ENTRIES, Limit::Ranges)?;
    at_most(sizes.chains, MAX_CHAINS, Limit::Chains)?;
    at_most(sizes.switches, MAX_SWITCHES, Limit::Switches)?;
    at_most(sizes.chunks, MAX_CHUNKS, Limit::Chunks)
}
