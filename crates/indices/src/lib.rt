// Every pool reference of one instruction is checked: the indices among its bytes, then those in the record that it
// names. The answer is the first index that is not below the size of its pool. The record is passed once, and nothing
// is searched. Left to others: which offsets start an instruction, whether the records' own spans lie within their
// tables, and what the instruction does.
#![tactic(auto)]

ghost use Rattle.std.specs.Prelude.{◌≡◌, [], ◌∷◌, ◌<◌, ℕ, cond, ltb, Ok, Err};
ghost use Rattle.code.specs.Width.{width_at};
ghost use Rattle.pools.specs.Lent.{pools_of};
ghost use Rattle.indices.specs.Indices.{first_bad_ref, into, refs, size_of, tables_of, pool_sizes};
ghost use Rattle.indices.specs.Checks.{Sound, checked_by, checked_told, pool_number};

mod fields;
mod records;

use code::{Number, tag};
use pools::{Pools, limits};

// What an index can point into. As a number a pool is the one that is told. Of custom syntax sites there are none.
#[derive(Clone, Copy, PartialEq, Eq)]
pub enum Pool {
    Constant = 1,
    Name = 2,
    Operator = 3,
    OpAssignment = 4,
    Chain = 5,
    Switch = 6,
    Site = 7,
}

impl From<Pool> for u64 {
    ghost from_gives = { λ pool number. number ≡ pool_number pool };

    #[tactic(auto, using(crate::proofs::Numbers::pool_numbered))]
    fn from(pool: Pool) -> u64 {
        pool as u64
    }
}

// How many entries each pool holds.
#[derive(Clone, Copy)]
pub struct Sizes {
    pub constants: usize,
    pub names: usize,
    pub tokens: usize,
    pub op_assignments: usize,
    pub chains: usize,
    pub switches: usize,
}

impl Sizes {
    // How many entries a pool holds.
    #[tactic(auto, unfolding(crate::specs::Indices::size_of, crate::specs::Checks::pool_number))]
    pub fn of(self, pool: Pool) -> usize
        ensures { result ≡ size_of self (pool_number pool) }
    {
        match pool {
            Pool::Constant => self.constants,
            Pool::Name => self.names,
            Pool::Operator => self.tokens,
            Pool::OpAssignment => self.op_assignments,
            Pool::Chain => self.chains,
            Pool::Switch => self.switches,
            Pool::Site => 0,
        }
    }
}

impl From<limits::Sizes> for Sizes {
    ghost from_gives = { λ all counted. counted ≡ pool_sizes all };

    fn from(all: limits::Sizes) -> Sizes {
        Sizes {
            constants: all.constants,
            names: all.names,
            tokens: all.tokens,
            op_assignments: all.op_assignments,
            chains: all.chains,
            switches: all.switches,
        }
    }
}

// A bad reference: an index with nothing behind it, and the pool that it points into. What names a pool is left to the
// caller.
#[derive(Clone, Copy, PartialEq, Eq)]
pub struct BadIndex<P = Pool> {
    pub index: u32,
    pub pool: P,
}

// One reference into a pool of a size.
#[tactic(auto, using(std::proofs::lemmas::Bool::Decides::nat_tests), unfolding(crate::specs::Checks::checked_by, crate::specs::Indices::first_bad_ref))]
pub fn bounded<P: Copy>(index: u32, pool: P, size: usize) -> Result<(), BadIndex<P>>
    ensures value { result ≡ cond (ltb index size) (Ok tt) (Err (record { index = index; pool = pool })) }
    ensures told { (number : P → ℕ)
        → checked_by number result ≡ first_bad_ref (λ p. size) (into (number pool) index ∷ []) }
{
    if (index as usize) < size {
        Ok(())
    } else {
        Err(BadIndex { index, pool })
    }
}

// All references of the instruction at an offset, up to the first bad one.
pub fn check_indices(
    code: &[u8],
    at: usize,
    sizes: Sizes,
    pools: &Pools<'_>,
) -> Result<(), BadIndex>
    requires at_nonzero { 0 < width_at code.now at }
    requires sound { Sound sizes (tables_of (pools_of pools.now)) }
    ensures { checked_told result ≡ first_bad_ref (size_of sizes) (refs (tables_of (pools_of pools.now)) code.now at) }
{
    fields::check_fields(code, at, sizes)?;
    match code[at] {
        tag::CHAIN => {
            let chain = u16::read(code, at + 1) as usize;
            records::check_chain_indices(pools.chains, chain, pools.steps, sizes)
        }
        tag::SWITCH => {
            let switch = u16::read(code, at + 1) as usize;
            records::check_switch_indices(pools.switches, switch, pools.cases, sizes)
        }
        _ => Ok(()),
    }
}
