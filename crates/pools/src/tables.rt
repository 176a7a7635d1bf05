// The tables: no word of one is left over, and each entry is good. Ragged tables are told before any entry, and of the
// entries the first bad one, by the table that it stands in and not by the one that it reaches past.
// A case and a range have nothing to test here: their words are tested where an instruction names their switch.
ghost use Rattle.std.specs.Prelude.{Bool, ◌≡◌, ℕ, ◌<◌};
ghost use Rattle.pools.specs.Pools.{chain_at, step_at, switch_at, chains_in, steps_in, switches_in};
ghost use Rattle.pools.specs.Tables.{past, bad_chain, bad_step, bad_switch};
ghost use Rattle.pools.specs.Answers.{table_number, tables_told};
ghost use Rattle.pools.specs.Tables.{whole_table, good_entries, first_bad_table};

use super::{CASE_WORDS, CHAIN_WORDS, Pools, STEP_WORDS, SWITCH_WORDS};

// The tables that have something to test, in the order of the tests. As a number a table is the one that is told.
#[derive(Clone, Copy, PartialEq, Eq)]
pub enum Table {
    Chains = 1,
    Steps = 2,
    Switches = 3,
    Cases = 4,
}

impl From<Table> for u64 {
    ghost from_gives = { λ table number. number ≡ table_number table };

    #[tactic(auto, using(crate::proofs::Numbers::table_numbered))]
    fn from(table: Table) -> u64 {
        table as u64
    }
}

// A bad entry: the table that it stands in, and its index there. Where the table is ragged, the index is the number of
// whole ones.
#[derive(Clone, Copy, PartialEq, Eq)]
pub struct BadEntry {
    pub table: Table,
    pub entry: usize,
}

// Which word of a chain holds what, and the last root and the last tail that mean something.
pub const ROOT: usize = 0;

pub const TAIL: usize = 3;

pub const FIRST_STEP: usize = 5;

pub const STEPS: usize = 6;

// Roots, tails and kinds are words of a lent table, as C fills them: any number may stand there, so they stay numbers.
const LAST_ROOT: u32 = 3;

const LAST_TAIL: u32 = 2;

// The same of a step and its kind.
pub const KIND: usize = 0;

const LAST_KIND: u32 = 2;

// The same of a switch.
pub const FIRST_CASE: usize = 0;

pub const CASES: usize = 1;

pub const FIRST_RANGE: usize = 2;

pub const RANGES: usize = 3;

// Does what an entry names reach past its table? Two words of 32 bits are added in 64, so the sum is exact.
fn reaches_past(first: u32, count: u32, entries: usize) -> bool
    ensures { result ≡ past entries first count }
{
    first as u64 + count as u64 > entries as u64
}

// Is a chain bad, where there are so many steps? For a caller who knows that the entry is there.
#[tactic(auto, using(std::proofs::lemmas::Bool::Decides::nat_tests), unfolding(crate::specs::Pools::chain_at, crate::specs::Tables::bad_chain))]
fn chain_is_bad(chains: &[u32], entry: usize, steps: usize) -> bool
    requires { entry < chains_in chains.now }
    ensures { result ≡ bad_chain steps (chain_at chains.now entry) }
{
    let at = entry * CHAIN_WORDS;
    chains[at + ROOT] > LAST_ROOT
        || chains[at + TAIL] > LAST_TAIL
        || reaches_past(chains[at + FIRST_STEP], chains[at + STEPS], steps)
}

// Is a step bad? For a caller who knows that the entry is there.
#[tactic(auto, unfolding(crate::specs::Pools::step_at, crate::specs::Tables::bad_step))]
fn step_is_bad(steps: &[u32], entry: usize) -> bool
    requires { entry < steps_in steps.now }
    ensures { result ≡ bad_step (step_at steps.now entry) }
{
    let at = entry * STEP_WORDS;
    steps[at + KIND] > LAST_KIND
}

// Is a switch bad, where there are so many cases and ranges? For a caller who knows that the entry is there.
#[tactic(auto, using(std::proofs::lemmas::Bool::Decides::nat_tests), unfolding(crate::specs::Pools::switch_at, crate::specs::Tables::bad_switch))]
fn switch_is_bad(switches: &[u32], entry: usize, cases: usize, ranges: usize) -> bool
    requires { entry < switches_in switches.now }
    ensures { result ≡ bad_switch cases ranges (switch_at switches.now entry) }
{
    let at = entry * SWITCH_WORDS;
    reaches_past(switches[at + FIRST_CASE], switches[at + CASES], cases)
        || reaches_past(switches[at + FIRST_RANGE], switches[at + RANGES], ranges)
}

// Do the words of a table make whole entries, of this size each?
#[tactic(auto, using(std::proofs::lemmas::Bool::Decides::nat_tests), unfolding(crate::specs::Answers::tables_told, crate::specs::Tables::whole_table, crate::specs::Tables::ragged))]
fn check_whole(words: &[u32], size: usize, table: Table) -> Result<(), BadEntry>
    requires { 0 < size }
    ensures { tables_told result ≡ whole_table (table_number table) size words.now }
{
    if words.len() % size == 0 {
        Ok(())
    } else {
        Err(BadEntry {
            table,
            entry: words.len() / size,
        })
    }
}

// The entries of a table upward, where there are so many. The test takes an entry's number: what is bad of an entry is
// defined by its number, so chunks of words would only be numbered again.
fn check_entries<F: Fn(usize) -> bool>(
    count: usize,
    table: Table,
    is_bad: F,
) -> Result<(), BadEntry>
    requires { (i : ℕ) → i < count → F.pre is_bad i }
    ensures { (bad : ℕ → Bool) → ((i : ℕ) (r : Bool) → i < count → F.post is_bad i r → r ≡ bad i)
        → tables_told result ≡ good_entries (table_number table) bad count }
{
    for entry in 0..count {
        if is_bad(entry) {
            return Err(BadEntry { table, entry });
        }
    }
    Ok(())
}

// Is every table whole, and each entry good? If not, the first that is bad is told.
pub fn check_tables(pools: &Pools<'_>) -> Result<(), BadEntry>
    ensures { tables_told result ≡ first_bad_table pools.now.chains.now pools.now.steps.now pools.now.switches.now
        pools.now.cases.now pools.now.ranges.now }
{
    let Pools {
        chains,
        steps,
        switches,
        cases,
        ranges,
        ..
    } = *pools;
    check_whole(chains, CHAIN_WORDS, Table::Chains)?;
    check_whole(steps, STEP_WORDS, Table::Steps)?;
    check_whole(switches, SWITCH_WORDS, Table::Switches)?;
    check_whole(cases, CASE_WORDS, Table::Cases)?;
    let steps_in = steps.len() / STEP_WORDS;
    let cases_in = cases.len() / CASE_WORDS;
    check_entries(chains.len() / CHAIN_WORDS, Table::Chains, |entry| {
        chain_is_bad(chains, entry, steps_in)
    })?;
    check_entries(steps_in, Table::Steps, |entry| step_is_bad(steps, entry))?;
    check_entries(switches.len() / SWITCH_WORDS, Table::Switches, |entry| {
        switch_is_bad(switches, entry, cases_in, ranges.len())
    })
}
