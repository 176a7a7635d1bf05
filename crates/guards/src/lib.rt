// Whether an instruction can be asked about: it has its width, and the entries of the tables that it names are there.
// The answer is true exactly where `rules` can be asked about the instruction, for any bytes and any tables.
// What is made of the answer is left to `probe`, whose exports by it ask nothing of their caller.
#![tactic(auto)]

ghost use Rattle.std.specs.Prelude.{true, false, ◌≡◌, ◌+◌, ◌<◌, leb, MatchOption};
ghost use Rattle.code.specs.Layout.{among};
ghost use Rattle.code.specs.Tags.{bytes};
ghost use Rattle.code.specs.Width.{width_at};
ghost use Rattle.rules.specs.Asks.{qualifiable};
ghost use Rattle.rules.specs.FromLists.{script_of};
ghost use Rattle.rules.specs.There.{Stands};
ghost use Rattle.guards.specs.Guards.{has_width, has_name, has_chain, has_switch, there};

use code::{Number, tag};
use pools::{CASE_WORDS, CHAIN_WORDS, STEP_WORDS, SWITCH_WORDS, tables};
use rules::{Instruction, Script};

#[tactic(auto, using(crate::proofs::Found::width_ok))]
fn has_width(code: &[u8], at: usize) -> bool
    ensures { result ≡ has_width code.now at }
{
    code::width_at(code, at).is_ok()
}

// The tags whose rights go by the flag of a name.
#[tactic(auto, unfolding(code::specs::Tags::among))]
fn looks_at_name(tag: u8) -> bool
    ensures { result ≡ among tag (bytes qualifiable) }
{
    matches!(
        tag,
        tag::LOAD_NAMED
            | tag::CALL
            | tag::CALL_OP
            | tag::CALL_LOCAL_REF
            | tag::CALL_NAMED_REF
            | tag::CALL_THIS_REF
    )
}

fn has_name(code: &[u8], at: usize, names: &[u8]) -> bool
    requires { 0 < width_at code.now at }
    ensures { result ≡ has_name code.now at names.now }
{
    !looks_at_name(code[at]) || (u16::read(code, at + 1) as usize) < names.len()
}

// So many entries from a first one on are in their table. Two words of 32 bits are added in 64, so the sum is exact.
// `pools` tests the opposite of a bad entry, and keeps that to itself.
fn lie_within(first: u32, count: u32, entries: usize) -> bool
    ensures { result ≡ leb (first + count) entries }
{
    first as u64 + count as u64 <= entries as u64
}

fn has_chain(code: &[u8], at: usize, chains: &[u32], steps: &[u32]) -> bool
    requires { 0 < width_at code.now at }
    ensures { result ≡ has_chain code.now at chains.now steps.now }
{
    if code[at] != tag::CHAIN {
        return true;
    }
    let i = u16::read(code, at + 1) as usize;
    if chains.len() / CHAIN_WORDS <= i {
        return false;
    }
    let words = i * CHAIN_WORDS;
    lie_within(
        chains[words + tables::FIRST_STEP],
        chains[words + tables::STEPS],
        steps.len() / STEP_WORDS,
    )
}

fn has_switch(code: &[u8], at: usize, switches: &[u32], cases: &[u32], ranges: &[u32]) -> bool
    requires { 0 < width_at code.now at }
    ensures { result ≡ has_switch code.now at switches.now cases.now ranges.now }
{
    if code[at] != tag::SWITCH {
        return true;
    }
    let i = u16::read(code, at + 1) as usize;
    if switches.len() / SWITCH_WORDS <= i {
        return false;
    }
    let words = i * SWITCH_WORDS;
    let case_count = cases.len() / CASE_WORDS;
    lie_within(switches[words], switches[words + tables::CASES], case_count)
        && lie_within(
            switches[words + tables::FIRST_RANGE],
            switches[words + tables::RANGES],
            ranges.len(),
        )
}

// The instruction at an offset has its width, and the name, chain or switch that it names is there whole. Each test
// may ask for the width, and so stands inside the one before.
#[inline(always)]
pub fn is_there(script: &Script<'_>, at: usize) -> bool
    ensures { result ≡ there (script_of script.now) at }
{
    let code = script.code;
    let pools = &script.pools;
    has_width(code, at)
        && (has_name(code, at, pools.names)
            && (has_chain(code, at, pools.chains, pools.steps)
                && has_switch(code, at, pools.switches, pools.cases, pools.ranges)))
}

// The instruction at an offset, where it is there. Laid out where it is asked for, as the test above is, the script and
// the instruction need no memory.
#[inline(always)]
pub fn instruction_at<'a>(script: &'a Script<'a>, at: usize) -> Option<Instruction<'a>>
    ensures { MatchOption result (there (script_of script.now) at ≡ false)
        (λ i. (there (script_of script.now) at ≡ true) × (i.script.now ≡ script.now) × (i.at ≡ at)
        × Stands (script_of i.script.now) i.at) }
{
    if is_there(script, at) {
        Some(Instruction::at(script, at))
    } else {
        None
    }
}
