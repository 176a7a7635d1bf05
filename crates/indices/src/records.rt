// The references inside the record that an instruction names: a chain's names and operator, a switch's constants.
ghost use Rattle.std.specs.Prelude.{◌≡◌, ◌+◌, ◌<◌, ℕ, Result};
ghost use mathlib.Core.List.{List, [], ◌∷◌, flat_map};
ghost use Rattle.code.specs.Layout.{names};
ghost use Rattle.pools.specs.Good.{CasesWithin, StepsWithin};
ghost use Rattle.pools.specs.Pools.{case_at, cases_in, chain_at, chains_in, entries, step_at, steps_in};
ghost use Rattle.pools.specs.Pools.{switch_at, switches_in};
ghost use Rattle.indices.specs.Indices.{Ref, case_refs, chain_refs, first_bad_ref, into, root_refs, size_of, step_refs};
ghost use Rattle.indices.specs.Indices.{switch_refs, tail_refs};
ghost use Rattle.indices.specs.Checks.{checked_told};
ghost use Rattle.indices.specs.declared.BadIndex.{BadIndex};
ghost use Rattle.indices.specs.declared.Pool.{Pool};

use super::{BadIndex, Pool, Sizes, bounded};
use pools::{CASE_WORDS, CHAIN_WORDS, STEP_WORDS, SWITCH_WORDS};

// Which word of a chain holds what, after the first, which is its root. Here stand those of the references; `pools` has
// those that it tests.
const ROOT_NAME: usize = 1;

const TAIL: usize = 3;

const OPERATOR: usize = 4;

const FIRST_STEP: usize = 5;

const STEPS: usize = 6;

// The last root that has a name, and the tail that has an operator. Words of a lent table, as C fills them: numbers.
const NAMED: u32 = 1;

const ASSIGN_WITH_OPERATOR: u32 = 2;

// Which word of a step holds what, after the first, which is its kind; and the kinds that name something.
const STEP_NAME: usize = 1;

const GETTER: usize = 2;

const SETTER: usize = 3;

const PROPERTY: u32 = 1;

const METHOD: u32 = 2;

// The word of a switch after the first, which is its first case; and the word of a case after its target.
const CASES: usize = 1;

const CASE_CONSTANT: usize = 1;

// One name, of a root or of a step.
#[tactic(auto, unfolding(crate::specs::Indices::first_bad_ref, crate::specs::Checks::pool_number, crate::specs::Indices::size_of))]
fn check_name(name: u32, sizes: Sizes) -> Result<(), BadIndex>
    ensures { checked_told result ≡ first_bad_ref (size_of sizes) (into names name ∷ []) }
{
    bounded(name, Pool::Name, sizes.names)
}

// The name of a chain's root, where it has one.
#[tactic(auto, using(std::proofs::lemmas::Bool::Decides::nat_tests), unfolding(crate::specs::Checks::checked_by, crate::specs::Indices::first_bad_ref, crate::specs::Indices::root_refs))]
fn check_root(root: u32, name: u32, sizes: Sizes) -> Result<(), BadIndex>
    ensures { checked_told result ≡ first_bad_ref (size_of sizes) (root_refs root name) }
{
    if root <= NAMED {
        check_name(name, sizes)
    } else {
        Ok(())
    }
}

// The operator of a chain's tail, where it has one.
#[tactic(auto, using(std::proofs::lemmas::Bool::Decides::nat_tests), unfolding(crate::specs::Checks::checked_by, crate::specs::Checks::pool_number, crate::specs::Indices::first_bad_ref, crate::specs::Indices::size_of, crate::specs::Indices::tail_refs))]
fn check_tail(tail: u32, operator: u32, sizes: Sizes) -> Result<(), BadIndex>
    ensures { checked_told result ≡ first_bad_ref (size_of sizes) (tail_refs tail operator) }
{
    if tail == ASSIGN_WITH_OPERATOR {
        bounded(operator, Pool::OpAssignment, sizes.op_assignments)
    } else {
        Ok(())
    }
}

// The three names of a property.
fn check_property(name: u32, getter: u32, setter: u32, sizes: Sizes) -> Result<(), BadIndex>
    ensures { checked_told result ≡ first_bad_ref (size_of sizes)
        (into names name ∷ into names getter ∷ into names setter ∷ []) }
{
    check_name(name, sizes)?;
    check_name(getter, sizes)?;
    check_name(setter, sizes)
}

// The names of a step, as its kind has it.
#[tactic(auto, using(std::proofs::lemmas::Bool::Decides::nat_tests), unfolding(crate::specs::Checks::checked_by, crate::specs::Indices::first_bad_ref, crate::specs::Indices::step_refs, pools::specs::Pools::step_at))]
fn check_step(steps: &[u32], step: usize, sizes: Sizes) -> Result<(), BadIndex>
    requires { step < steps_in steps.now }
    ensures { checked_told result ≡ first_bad_ref (size_of sizes) (step_refs (step_at steps.now step)) }
{
    let word = step * STEP_WORDS;
    let kind = steps[word];
    let name = steps[word + STEP_NAME];
    match kind {
        PROPERTY => check_property(name, steps[word + GETTER], steps[word + SETTER], sizes),
        METHOD => check_name(name, sizes),
        _ => Ok(()),
    }
}

// So many entries of a table from a first one on, up to the first bad reference, where an entry is checked so.
fn check_each<F: Fn(usize) -> Result<(), BadIndex>>(
    first: u32,
    count: u32,
    check: F,
) -> Result<(), BadIndex>
    requires { (i : ℕ) → i < first + count → F.pre check i }
    ensures { (size : ℕ → ℕ) (named : ℕ → List Ref)
        → ((i : ℕ) (r : Result Unit (BadIndex Pool)) → i < first + count → F.post check i r
        → checked_told r ≡ first_bad_ref size (named i))
        → checked_told result ≡ first_bad_ref size (flat_map (λ rs. rs) (entries named first count)) }
{
    let from = first as usize;
    for entry in from..from + count as usize {
        check(entry)?;
    }
    Ok(())
}

// A chain's references: its root's, its steps' and its tail's, up to the first bad one. For a caller who knows that the
// chain is there. It takes the two tables that it reads, and so asks nothing of the others.
pub fn check_chain_indices(
    chains: &[u32],
    chain: usize,
    steps: &[u32],
    sizes: Sizes,
) -> Result<(), BadIndex>
    requires chain_bound { chain < chains_in chains.now }
    requires steps_within { StepsWithin (steps_in steps.now) (chain_at chains.now chain) }
    ensures { checked_told result ≡ first_bad_ref (size_of sizes)
        (chain_refs steps.now (chain_at chains.now chain)) }
{
    let word = chain * CHAIN_WORDS;
    check_root(chains[word], chains[word + ROOT_NAME], sizes)?;
    check_each(chains[word + FIRST_STEP], chains[word + STEPS], |step| {
        check_step(steps, step, sizes)
    })?;
    check_tail(chains[word + TAIL], chains[word + OPERATOR], sizes)
}

// The constant of a case.
#[tactic(auto, unfolding(crate::specs::Indices::first_bad_ref, crate::specs::Checks::pool_number, crate::specs::Indices::size_of, crate::specs::Indices::case_refs, pools::specs::Pools::case_at))]
fn check_case(cases: &[u32], case: usize, sizes: Sizes) -> Result<(), BadIndex>
    requires { case < cases_in cases.now }
    ensures { checked_told result ≡ first_bad_ref (size_of sizes) (case_refs (case_at cases.now case)) }
{
    bounded(
        cases[case * CASE_WORDS + CASE_CONSTANT],
        Pool::Constant,
        sizes.constants,
    )
}

// A switch's references, which are its cases'. For a caller who knows that the switch is there.
pub fn check_switch_indices(
    switches: &[u32],
    switch: usize,
    cases: &[u32],
    sizes: Sizes,
) -> Result<(), BadIndex>
    requires switch_bound { switch < switches_in switches.now }
    requires cases_within { CasesWithin (cases_in cases.now) (switch_at switches.now switch) }
    ensures { checked_told result ≡ first_bad_ref (size_of sizes)
        (switch_refs cases.now (switch_at switches.now switch)) }
{
    let word = switch * SWITCH_WORDS;
    check_each(switches[word], switches[word + CASES], |case| {
        check_case(cases, case, sizes)
    })
}
