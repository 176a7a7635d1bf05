// Where an instruction leads to, and with which depths: document 01's targets and edges. What depends on the tag alone
// goes by its flow (shapes), so that whoever asks several of these looks the tag up once.
ghost use Rattle.std.specs.Prelude.{cond, ◌≡◌, ℕ, ◌+◌, ◌-◌, ◌^◌, ◌≤◌, ◌<◌, length, get_or};
ghost use Rattle.pools.specs.Pools.{switch_at};
ghost use Rattle.rules.specs.Edges.{falls, plain, arms_of, targets, after_of, jumped_of};
ghost use Rattle.rules.specs.FromLists.{script_of};
ghost use Rattle.rules.specs.Needs.{iterators_needed, handlers_needed};
ghost use Rattle.rules.specs.Shapes.{Flows};
ghost use Rattle.rules.specs.There.{SwitchWhole, HasSwitchEntry, HasSwitch, HeldBy};

use crate::shapes::Flow;
use crate::{Effect, Instruction};
use answer::Depths;
use code::{Number, tag};
use pools::{CASE_WORDS, Pools, SWITCH_WORDS, tables};

impl Flow {
    // Control goes on to the next instruction after a tag of this flow.
    pub fn falls(self) -> bool
        ensures { (tag : ℕ) → Flows tag self → result ≡ falls tag }
    {
        !matches!(self, Flow::Jump | Flow::Switch | Flow::Leave)
    }

    // Control goes on to the next instruction after a tag of this flow, and nowhere else.
    pub fn plain(self) -> bool
        ensures { (tag : ℕ) → Flows tag self → result ≡ plain tag }
    {
        matches!(
            self,
            Flow::Next | Flow::IterInit | Flow::PopHandler | Flow::IterDrop
        )
    }

    // How many iterators a tag of this flow needs.
    pub fn iterators_needed(self) -> u32
        ensures { (tag : ℕ) → Flows tag self → result ≡ iterators_needed tag }
    {
        match self {
            Flow::IterDrop | Flow::IterNext => 1,
            _ => 0,
        }
    }

    // How many handlers a tag of this flow needs.
    pub fn handlers_needed(self) -> u32
        ensures { (tag : ℕ) → Flows tag self → result ≡ handlers_needed tag }
    {
        match self {
            Flow::PopHandler => 1,
            _ => 0,
        }
    }

    // The depths just after an instruction of this flow.
    pub fn after(self, effect: Effect, before: Depths) -> Depths
        requires held_by { HeldBy self before }
        requires pops_le_operands { effect.pops ≤ before.operands }
        requires pushes_bound { before.operands - effect.pops + effect.pushes < 2 ^ 32 }
        ensures { (tag : ℕ) → Flows tag self → result ≡ after_of tag effect.pops effect.pushes before }
    {
        let mut after = before;
        after.operands = before.operands - effect.pops + effect.pushes;
        match self {
            Flow::IterInit => after.iterators += 1,
            Flow::IterDrop => after.iterators -= 1,
            Flow::PushHandler => after.handlers += 1,
            Flow::PopHandler => after.handlers -= 1,
            _ => {}
        }
        after
    }

    // The depths at each of an instruction's targets, from those before it and those after it. An iterator that has
    // ended is dropped, and its exit finds nothing pushed; a handler finds the operands from before it.
    pub fn jumped(self, before: Depths, after: Depths) -> Depths
        requires { HeldBy self before }
        ensures { (tag : ℕ) → Flows tag self → result ≡ jumped_of tag before after }
    {
        match self {
            Flow::IterNext => Depths {
                iterators: before.iterators - 1,
                ..before
            },
            Flow::PushHandler => Depths {
                handlers: before.handlers + 1,
                ..before
            },
            _ => after,
        }
    }

    // How many edges lead out of an instruction with so many targets: one to each, and one to the next instruction
    // where control falls through.
    pub fn edge_count(self, targets: u64) -> u64
        requires { targets < 2 ^ 63 }
        ensures { (tag : ℕ) → Flows tag self → result ≡ targets + cond (falls tag) 1 0 }
    {
        if self.falls() { targets + 1 } else { targets }
    }
}

// The arm of this number of a switch, counted from 0: cases, ranges, default.
fn arm(pools: &Pools<'_>, i: usize, k: usize) -> u32
    requires switch_whole { SwitchWhole pools.now.switches.now pools.now.cases.now pools.now.ranges.now i }
    requires k_in_bounds { k < length (arms_of pools.now.cases.now pools.now.ranges.now
        (switch_at pools.now.switches.now i)) }
    ensures { result ≡ get_or (arms_of pools.now.cases.now pools.now.ranges.now
        (switch_at pools.now.switches.now i)) k 0 }
{
    let words = i * SWITCH_WORDS;
    let case_count = pools.switches[words + tables::CASES] as usize;
    if k < case_count {
        let case = pools.switches[words] as usize + k;
        return pools.cases[case * CASE_WORDS];
    }
    let past = k - case_count;
    let range_count = pools.switches[words + tables::RANGES] as usize;
    if past < range_count {
        let range = pools.switches[words + tables::FIRST_RANGE] as usize + past;
        return pools.ranges[range];
    }
    pools.switches[words + 4]
}

impl<'a> Instruction<'a> {
    // How many targets it names. That a switch is there is asked for here and in `target`, and not kept by the type: who
    // has an instruction need not know it.
    pub fn target_count(&self) -> u64
        requires { HasSwitchEntry (script_of self.now.script.now) self.now.at }
        ensures bound { result < 2 ^ 63 }
        ensures count { result ≡ length (targets (script_of self.now.script.now) self.now.at) }
    {
        match self.flow() {
            Flow::IterNext | Flow::PushHandler | Flow::Branch | Flow::Jump => 1,
            Flow::Switch => {
                let words = self.index() as usize * SWITCH_WORDS;
                let script = self.script;
                let switches = script.pools.switches;
                switches[words + tables::CASES] as u64 + switches[words + tables::RANGES] as u64 + 1
            }
            _ => 0,
        }
    }

    // The target of this number, counted from 0.
    pub fn target(&self, k: usize) -> u32
        requires has_switch { HasSwitch (script_of self.now.script.now) self.now.at }
        requires below { k < length (targets (script_of self.now.script.now) self.now.at) }
        ensures { result ≡ get_or (targets (script_of self.now.script.now) self.now.at) k 0 }
    {
        let script = self.script;
        if script.code[self.at] == tag::SWITCH {
            arm(&script.pools, self.index() as usize, k)
        } else {
            u32::read(script.code, self.at + 1)
        }
    }
}
