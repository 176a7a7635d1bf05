// Everything before the chunks, in document 01's order: limits, tables, room for marks and heights, constants, the
// first pass over the code with its marks, and the right to have functions. Every answer, and all that marks hold on
// return, is fixed by what is passed in; any of it gets an answer. What passes is what a chunk's walk builds on. The
// chunks themselves are left to `verify`.
#![tactic(auto)]

ghost use Rattle.std.specs.Prelude.{◌≡◌, ◌<◌, ◌/◌, length};
ghost use Rattle.code.specs.Width.{width_at};
ghost use Rattle.indices.specs.Checks.{Sound};
ghost use Rattle.indices.specs.Indices.{pool_sizes, tables_of};
ghost use Rattle.pools.specs.Lent.{pools_of};
ghost use Rattle.answer.specs.Answer.{told};
ghost use Rattle.before.specs.Before.{limits_test, tables_test, lent_test, rights_test, constants_test, function_test};
ghost use Rattle.before.specs.Before.{indices_test, code_test, before_stores, after_stores, marks_of};
ghost use Rattle.before.specs.Input.{sizes_of};
ghost use Rattle.before.specs.Parameters.{input_of};
ghost use Rattle.before.specs.Calls.{Settled, Prepared, ForChunks};
ghost use Rattle.before.specs.Pass.{Turned, turn_at, MarkedAll};

use answer::{Buffer, Refusal};
use code::NoWidth;
use pools::Pools;
use pools::limits::Sizes;
use rules::{Script, caps};

// The whole input but the chunks' spans: a script, how many functions it has, and how many chunks.
#[derive(Clone, Copy)]
pub struct Input<'a> {
    pub script: Script<'a>,
    pub functions: u32,
    pub chunks: usize,
}

impl<'a> Input<'a> {
    // How many there are of everything that has a limit, tables by whole entries.
    pub fn sizes(&self) -> Sizes
        ensures { result ≡ sizes_of (input_of self.now) }
    {
        let script = &self.script;
        Sizes::of(script.code.len(), &script.pools, self.chunks)
    }
}

// A code that the first pass can read: with the pools that its instructions point into, of which the tables are good,
// and how many entries each pool has.
#[derive(Clone, Copy)]
pub struct Readable<'a> {
    pub code: &'a [u8],
    pub pools: &'a Pools<'a>,
    pub sizes: indices::Sizes,
    pub ghost sound: { Sound sizes (tables_of (pools_of pools.now)) },
}

// Kind 1: is there more of anything than its limit allows?
#[tactic(auto, unfolding(crate::specs::Before::limits_test, pools::specs::Answers::limits_told, answer::specs::Answer::told))]
pub fn check_limits(sizes: Sizes) -> Result<(), Refusal>
    ensures { told result ≡ limits_test sizes }
{
    pools::limits::check_limits(sizes).map_err(|limit| Refusal::TooLarge(u64::from(limit)))
}

// Kind 2: is a table ragged, or an entry of one bad?
#[tactic(auto, unfolding(crate::specs::Before::tables_test, pools::specs::Answers::tables_told, answer::specs::Answer::told))]
pub fn check_tables(pools: &Pools<'_>) -> Result<(), Refusal>
    ensures { told result ≡ tables_test pools.now.chains.now pools.now.steps.now pools.now.switches.now
        pools.now.cases.now pools.now.ranges.now }
{
    pools::tables::check_tables(pools).map_err(|bad| Refusal::BadTable {
        table: u64::from(bad.table),
        entry: bad.entry as u64,
    })
}

// Kind 3: are so many elements lent of the buffer of this number? It may be any number, and not only that of a
// `Buffer`: the test is offered to every caller, and answers for them all.
#[tactic(auto, unfolding(crate::specs::Before::lent_test, answer::specs::Answer::told))]
pub fn check_room(needed: usize, lent: usize, buffer: u64) -> Result<(), Refusal>
    ensures { told result ≡ lent_test needed lent buffer }
{
    if lent < needed {
        Err(Refusal::NoRoom {
            needed: needed as u64,
            buffer,
        })
    } else {
        Ok(())
    }
}

// Kind 4, with the whole word: are rights granted? One constant is one such test.
#[tactic(auto, unfolding(crate::specs::Before::rights_test, answer::specs::Answer::told))]
pub fn check_granted(needed: u32, rights: u32) -> Result<(), Refusal>
    ensures { told result ≡ rights_test needed rights }
{
    let lacks = rules::rights::lacking(needed, rights);
    if lacks == 0 {
        Ok(())
    } else {
        Err(Refusal::MissingCaps {
            at: 0,
            missing: needed,
        })
    }
}

// The constants upward.
#[tactic(auto, using(crate::proofs::Constants::none_yet, crate::proofs::Constants::all_granted, crate::proofs::Constants::one_more, crate::proofs::Constants::lacks), unfolding(answer::specs::Answer::told))]
pub fn check_constants(constants: &[u32], rights: u32) -> Result<(), Refusal>
    ensures { told result ≡ constants_test rights constants.now }
{
    for constant in constants {
        check_granted(*constant, rights)?;
    }
    Ok(())
}

// FUNCTION, where functions exist.
#[tactic(auto, unfolding(crate::specs::Before::function_test, answer::specs::Answer::told))]
pub fn check_function(functions: u32, rights: u32) -> Result<(), Refusal>
    ensures { told result ≡ function_test functions rights }
{
    if functions == 0 {
        Ok(())
    } else {
        check_granted(caps::FUNCTION, rights)
    }
}

// Kind 6: is an index of the instruction at an offset bad? For a caller who knows that its width is there.
#[tactic(auto, unfolding(crate::specs::Before::indices_test, indices::specs::Checks::checked_by, answer::specs::Answer::told))]
fn check_indices(source: &Readable<'_>, at: usize) -> Result<(), Refusal>
    requires { 0 < width_at source.now.code.now at }
    ensures { told result ≡ indices_test source.now.sizes (tables_of (pools_of source.now.pools.now))
        source.now.code.now at }
{
    indices::check_indices(source.code, at, source.sizes, source.pools).map_err(
        |bad| Refusal::BadIndex {
            at: at as u64,
            index: bad.index,
            pool: u64::from(bad.pool),
        },
    )
}

// One instruction of the first pass: its width, then its indices, and its mark where nothing is refused. The offset
// after it, or none where the code has ended.
#[tactic(auto, using(crate::proofs::Pass::there, code::proofs::Widths::wide))]
pub fn pass_instruction(
    source: &Readable<'_>,
    at: usize,
    marks: &mut [u64],
) -> Result<Option<usize>, Refusal>
    requires { length source.now.code.now / 64 < length marks.old }
    ensures { Turned
        (turn_at source.now.sizes (tables_of (pools_of source.now.pools.now)) source.now.code.now at)
        at marks.old result marks.new }
{
    match code::width_at(source.code, at) {
        Ok(width) => {
            check_indices(source, at)?;
            marks::set_start(marks, at);
            Ok(Some(at + width))
        }
        Err(NoWidth::NoByte) => Ok(None),
        Err(NoWidth::UnknownTag | NoWidth::CutOff) => Err(Refusal::Undecodable(at as u64)),
    }
}

// Every instruction in turn, each marked, up to the code's end or the first refusal.
fn mark_all(source: &Readable<'_>, marks: &mut [u64]) -> Result<(), Refusal>
    requires { length source.now.code.now / 64 < length marks.old }
    ensures { MarkedAll source.now.code.now
        (code_test source.now.sizes (tables_of (pools_of source.now.pools.now)) source.now.code.now 0)
        marks.old result marks.new }
{
    let mut at = 0;
    while let Some(after) = pass_instruction(source, at, marks)? {
        at = after;
    }
    Ok(())
}

// Hands on an outcome after the first store: a refusal leaves no mark.
#[tactic(auto, unfolding(crate::specs::Calls::left_by))]
fn settle(outcome: Result<(), Refusal>, marks: &mut [u64]) -> Result<(), Refusal>
    ensures { Settled outcome marks.old result marks.new }
{
    if outcome.is_err() {
        marks::clear(marks);
    }
    outcome
}

// Kinds 5 and 6, over the whole code, reachable or not: every instruction in turn, each marked. Words past those that
// the code needs are cleared too, and a refusal clears all of them again.
pub fn first_pass(source: &Readable<'_>, marks: &mut [u64]) -> Result<(), Refusal>
    requires { length source.now.code.now / 64 < length marks.old }
    ensures { Prepared
        (code_test source.now.sizes (tables_of (pools_of source.now.pools.now)) source.now.code.now 0)
        (marks_of source.now.code.now (told result) (length marks.old))
        result marks.new }
{
    marks::clear(marks);
    let outcome = mark_all(source, marks);
    settle(outcome, marks)
}

// The tests before any store: limits, tables, and room, where so many words of marks and elements of heights are lent.
#[tactic(auto, unfolding(crate::specs::Before::early_tests, crate::specs::Before::first, answer::specs::Answer::told))]
fn early_tests(input: &Input<'_>, marks: usize, heights: usize) -> Result<(), Refusal>
    ensures { told result ≡ before_stores (input_of input.now) marks heights }
{
    let sizes = input.sizes();
    check_limits(sizes)?;
    check_tables(&input.script.pools)?;
    check_room(sizes.code / 64 + 1, marks, Buffer::Marks as u64)?;
    check_room(sizes.chunks, heights, Buffer::Heights as u64)
}

// The tests after the first store: constants, the first pass, FUNCTION. A refusal by any of them leaves no mark. For a
// caller who knows that the tables are good and the marks enough.
fn late_tests(input: &Input<'_>, marks: &mut [u64]) -> Result<(), Refusal>
    requires sound { Sound (pool_sizes (sizes_of (input_of input.now))) (tables_of (pools_of input.now.script.pools)) }
    requires code_in_bounds { length input.now.script.code.now / 64 < length marks.old }
    ensures { Prepared (after_stores (input_of input.now))
        (marks_of input.now.script.code.now (told result) (length marks.old))
        result marks.new }
{
    let script = &input.script;
    settle(
        check_constants(script.pools.constants, script.rights),
        marks,
    )?;
    let source = Readable {
        code: script.code,
        pools: &script.pools,
        sizes: indices::Sizes::from(input.sizes()),
    };
    first_pass(&source, marks)?;
    settle(check_function(input.functions, script.rights), marks)
}

// Everything before the chunks, of any input. Kinds 1, 2 and 3 leave marks as they were.
pub fn before_chunks(input: &Input<'_>, marks: &mut [u64], heights: usize) -> Result<(), Refusal>
    ensures { ForChunks (input_of input.now) heights marks.old result marks.new }
{
    early_tests(input, marks.len(), heights)?;
    late_tests(input, marks)
}
