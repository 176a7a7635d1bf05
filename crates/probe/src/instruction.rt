// What one instruction needs, does and leads to, in numbers. Number 0 where it has its width and the entries that it
// names are there; number 1 and zeros where not. C interface: each export takes the tables as flat lists.
ghost use Rattle.std.specs.Prelude.{◌≡◌};
ghost use Rattle.rules.specs.FromLists.{script, script_of};
ghost use Rattle.probe.specs.Instruction.{EffectSame, required_told, targets_told, edges_told, target_told};
ghost use Rattle.probe.specs.Same.{SameTold};

use crate::Told;
use pools::Pools;
use rules::Script;

#[repr(C)]
#[derive(Clone, Copy)]
pub struct EffectTold {
    pub number: u64,
    pub needs: u64,
    pub pops: u64,
    pub pushes: u64,
}

// The script of which these are lent. What an instruction is asked here looks at no constant, token, op-assignment or
// right.
#[inline(always)]
fn lent<'a>(
    code: &'a [u8],
    names: &'a [u8],
    chains: &'a [u32],
    steps: &'a [u32],
    switches: &'a [u32],
    cases: &'a [u32],
    ranges: &'a [u32],
) -> Script<'a>
    ensures { script_of result ≡ script 0 names.now chains.now steps.now switches.now cases.now ranges.now code.now }
{
    let pools = Pools {
        constants: &[],
        names,
        tokens: 0,
        op_assignments: 0,
        chains,
        steps,
        switches,
        cases,
        ranges,
    };
    Script {
        code,
        pools,
        rights: 0,
    }
}

#[unsafe(no_mangle)]
pub extern "C" fn probe_effect(
    code: &[u8],
    at: usize,
    names: &[u8],
    chains: &[u32],
    steps: &[u32],
    switches: &[u32],
    cases: &[u32],
    ranges: &[u32],
) -> EffectTold
    ensures { EffectSame code.now at names.now chains.now steps.now
        switches.now cases.now ranges.now result }
{
    let script = lent(code, names, chains, steps, switches, cases, ranges);
    match guards::instruction_at(&script, at) {
        Some(instruction) => {
            let effect = instruction.effect();
            EffectTold {
                number: 0,
                needs: u64::from(effect.needs),
                pops: u64::from(effect.pops),
                pushes: u64::from(effect.pushes),
            }
        }
        None => EffectTold {
            number: 1,
            needs: 0,
            pops: 0,
            pushes: 0,
        },
    }
}

// The rights, as a word of bits.
#[tactic(auto, unfolding(crate::specs::Instruction::told_if))]
#[unsafe(no_mangle)]
pub extern "C" fn probe_required(
    code: &[u8],
    at: usize,
    names: &[u8],
    chains: &[u32],
    steps: &[u32],
    switches: &[u32],
    cases: &[u32],
    ranges: &[u32],
) -> Told
    ensures { SameTold result (required_told code.now at names.now chains.now
        steps.now switches.now cases.now ranges.now) }
{
    let script = lent(code, names, chains, steps, switches, cases, ranges);
    match guards::instruction_at(&script, at) {
        Some(instruction) => Told::found(u64::from(instruction.required_caps())),
        None => Told::without(1),
    }
}

// How many targets it names.
#[tactic(auto, unfolding(crate::specs::Instruction::told_if))]
#[unsafe(no_mangle)]
pub extern "C" fn probe_targets(
    code: &[u8],
    at: usize,
    names: &[u8],
    chains: &[u32],
    steps: &[u32],
    switches: &[u32],
    cases: &[u32],
    ranges: &[u32],
) -> Told
    ensures { SameTold result (targets_told code.now at names.now chains.now
        steps.now switches.now cases.now ranges.now) }
{
    let script = lent(code, names, chains, steps, switches, cases, ranges);
    match guards::instruction_at(&script, at) {
        Some(instruction) => Told::found(instruction.target_count()),
        None => Told::without(1),
    }
}

// How many edges lead out of it.
#[tactic(auto, unfolding(crate::specs::Instruction::told_if))]
#[unsafe(no_mangle)]
pub extern "C" fn probe_edges(
    code: &[u8],
    at: usize,
    names: &[u8],
    chains: &[u32],
    steps: &[u32],
    switches: &[u32],
    cases: &[u32],
    ranges: &[u32],
) -> Told
    ensures { SameTold result (edges_told code.now at names.now chains.now
        steps.now switches.now cases.now ranges.now) }
{
    let script = lent(code, names, chains, steps, switches, cases, ranges);
    match guards::instruction_at(&script, at) {
        Some(instruction) => {
            let targets = instruction.target_count();
            Told::found(instruction.flow().edge_count(targets))
        }
        None => Told::without(1),
    }
}

// The target of a number; number 1 also where there is no target of this number.
#[tactic(auto, unfolding(crate::specs::Instruction::told_if))]
#[unsafe(no_mangle)]
pub extern "C" fn probe_target(
    code: &[u8],
    at: usize,
    names: &[u8],
    chains: &[u32],
    steps: &[u32],
    switches: &[u32],
    cases: &[u32],
    ranges: &[u32],
    k: usize,
) -> Told
    ensures { SameTold result (target_told code.now at names.now chains.now
        steps.now switches.now cases.now ranges.now k) }
{
    let script = lent(code, names, chains, steps, switches, cases, ranges);
    match guards::instruction_at(&script, at) {
        Some(instruction) if (k as u64) < instruction.target_count() => {
            Told::found(u64::from(instruction.target(k)))
        }
        _ => Told::without(1),
    }
}
