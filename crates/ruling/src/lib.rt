// One instruction of a chunk at given depths: what its rule says of it, and whether its jumps are good.
// Every answer is that of the rule and the judge of document 01's machine, of whatever passed the checks before.
// Left to `walk`: which places are taken in which order, and the depths seen at them.
#![tactic(auto)]

ghost use Rattle.std.specs.Prelude.{◌||◌, map, ◌≡◌, ℕ, ◌+◌, ◌-◌, ◌^◌, ◌≤◌, ◌<◌, ltb, leb, length};
ghost use Rattle.listing.specs.Starts.{starts};
ghost use Rattle.marks.specs.Places.{Holds};
ghost use Rattle.pools.specs.Sizes.{max_code};
ghost use Rattle.answer.specs.declared.Depths.{Depths};
ghost use Rattle.rules.specs.Edges.{targets};
ghost use Rattle.demand.specs.Chunk.{needs_test, judge};
ghost use Rattle.rules.specs.Shapes.{Flows};
ghost use Rattle.rules.specs.There.{HasName, HasChain, HasSwitch, HeldBy};
ghost use Rattle.machine.specs.Walk.{first_bad_jump};
ghost use Rattle.answer.specs.Answer.{told};
ghost use Rattle.rules.specs.FromLists.{script_of};
ghost use Rattle.ruling.specs.Ruling.{leaving, Settles, settled, jump_test, ruled};

use answer::{Depths, Refusal};
use rules::shapes::Flow;
use rules::{Effect, Instruction, effects, rights, shapes};

// Where control goes from an instruction: whether it falls through, the place after it, the depths just after it, and
// those at each of its targets.
#[derive(Clone, Copy)]
pub struct Edges {
    pub falls: bool,
    pub next: u32,
    pub after: Depths,
    pub jumped: Depths,
}

// Kind 4, with only what lacks, then 12, 15 and 16: has an instruction of this flow the rights and the depths that it
// needs?
fn check_needs(missing: u32, flow: Flow, needs: u32, at: usize, d: Depths) -> Result<(), Refusal>
    ensures { (tag : ℕ) → Flows tag flow → told result ≡ needs_test missing tag needs at d }
{
    let have = d.operands;
    if 0 < missing {
        return Err(Refusal::MissingCaps {
            at: at as u64,
            missing,
        });
    }
    if have < needs {
        return Err(Refusal::Underflow {
            at: at as u64,
            need: needs,
            have,
        });
    }
    if d.iterators < flow.iterators_needed() {
        return Err(Refusal::IteratorUnderflow(at as u64));
    }
    if d.handlers < flow.handlers_needed() {
        return Err(Refusal::HandlerUnderflow(at as u64));
    }
    Ok(())
}

// 13 where nothing but the next place is left to go to and it is not before the end; else the edges. For an instruction
// that has the depths it needs.
fn leave(flow: Flow, effect: Effect, next: u32, end: u32, d: Depths) -> Result<Edges, Refusal>
    requires held_by { HeldBy flow d }
    requires pops_le_operands { effect.pops ≤ d.operands }
    requires pushes_bound { d.operands - effect.pops + effect.pushes < 2 ^ 32 }
    ensures { (tag : ℕ) → Flows tag flow → result ≡ leaving tag effect.pops effect.pushes next end d }
{
    if flow.plain() && end <= next {
        return Err(Refusal::FallsOffTheEnd);
    }
    let after = flow.after(effect, d);
    let jumped = flow.jumped(d, after);
    let falls = flow.falls();
    Ok(Edges {
        falls,
        next,
        after,
        jumped,
    })
}

// The tests in their order, and then the edges, of an instruction that lacks so much of its rights.
fn settle(
    missing: u32,
    flow: Flow,
    effect: Effect,
    at: usize,
    next: u32,
    end: u32,
    d: Depths,
) -> Result<Edges, Refusal>
    requires { Settles flow effect d }
    ensures { (tag : ℕ) → Flows tag flow → result ≡ settled missing tag effect at next end d }
{
    check_needs(missing, flow, effect.needs, at, d)?;
    leave(flow, effect, next, end, d)
}

// The rule of an instruction, in a chunk with this end. What it names is there: `required_caps` and `effect` ask for it.
pub fn rule_of(instruction: &Instruction<'_>, end: u32, d: Depths) -> Result<Edges, Refusal>
    requires has_name { HasName (script_of instruction.now.script.now) instruction.now.at }
    requires has_chain { HasChain (script_of instruction.now.script.now) instruction.now.at }
    requires code_len_bound { length instruction.now.script.now.code.now ≤ max_code }
    requires operands_bound { d.operands + 1 < 2 ^ 32 }
    requires iterators_bound { d.iterators + 1 < 2 ^ 32 }
    requires handlers_bound { d.handlers + 1 < 2 ^ 32 }
    ensures { (entry declared : ℕ) → result ≡ ruled (script_of instruction.now.script.now)
        (record { entry = entry; end = end; declared = declared }) instruction.now.at d }
{
    let at = instruction.at;
    let next = (at + instruction.width()) as u32;
    // Of a simple instruction nothing is looked up but the word.
    if shapes::is_simple(instruction.word) {
        let effect = effects::fixed_effect(instruction.word);
        return settle(0, Flow::Next, effect, at, next, end, d);
    }
    let needed = instruction.required_caps();
    let missing = rights::lacking(needed, instruction.script.rights);
    let effect = instruction.effect();
    let flow = instruction.flow();
    settle(missing, flow, effect, at, next, end, d)
}

// Does a target lie outside of a chunk?
fn is_outside(entry: u32, end: u32, target: u32) -> bool
    ensures { result ≡ (ltb target entry || leb end target) }
{
    target < entry || end <= target
}

// The tests of one jump: 9, then 10.
pub fn go(marks: &[u64], entry: u32, end: u32, at: usize, target: u32) -> Result<(), Refusal>
    ensures { told result ≡ jump_test marks.now entry end at target }
{
    let outside = is_outside(entry, end, target);
    let starts = marks::starts_at(marks, target as usize);
    if outside {
        return Err(Refusal::JumpOutOfRange {
            at: at as u64,
            target,
        });
    }
    if !starts {
        return Err(Refusal::JumpIntoAnInstruction {
            at: at as u64,
            target,
        });
    }
    Ok(())
}

// Every jump of an instruction, in their order: the first that is refused. There are so many, counted once for this
// and for those that push them; `target` asks for the switch.
pub fn check_jumps(
    instruction: &Instruction<'_>,
    count: usize,
    marks: &[u64],
    entry: u32,
    end: u32,
) -> Result<(), Refusal>
    requires has_switch { HasSwitch (script_of instruction.now.script.now) instruction.now.at }
    requires count_value { count ≡ length (targets (script_of instruction.now.script.now) instruction.now.at) }
    requires holds { Holds marks.now (starts instruction.now.script.now.code.now) }
    ensures { (declared : ℕ) (d : Depths) → told result ≡ first_bad_jump
        (judge (script_of instruction.now.script.now)
        (record { entry = entry; end = end; declared = declared }) instruction.now.at)
        (map (λ (t : ℕ). record { place = t; depths = d })
        (targets (script_of instruction.now.script.now) instruction.now.at)) }
{
    for k in 0..count {
        let target = instruction.target(k);
        go(marks, entry, end, instruction.at, target)?;
    }
    Ok(())
}
