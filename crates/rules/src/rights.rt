// Which rights an instruction needs, as a word of bits.
ghost use Rattle.std.specs.Prelude.{◌≡◌, ◌+◌, ◌≤◌, ◌<◌, length};
ghost use Rattle.pools.specs.Pools.{chain_at, step_at, entries, steps_in};
ghost use Rattle.rules.specs.FromLists.{script_of};
ghost use Rattle.rules.specs.Needs.{required_rights};
ghost use Rattle.rules.specs.Rights.{of_name, of_step, of_steps, of_chain, lacking};
ghost use Rattle.rules.specs.There.{ChainWhole, HasName, HasChain};

use crate::{Instruction, caps, shapes};
use pools::{CHAIN_WORDS, Pools, STEP_WORDS, tables};

// MODULE for a qualified name.
#[tactic(auto, using(crate::proofs::Joined::plain_name, crate::proofs::Joined::qualified_name))]
fn name_caps(names: &[u8], i: usize) -> u32
    requires { i < length names.now }
    ensures { result ≡ of_name names.now i }
{
    if names[i] == 0 { 0 } else { caps::MODULE }
}

// What the step of this number needs.
#[tactic(auto, using(crate::proofs::Joined::index_step, crate::proofs::Joined::property_step, crate::proofs::Joined::method_step))]
fn step_caps(steps: &[u32], i: usize) -> u32
    requires { i < steps_in steps.now }
    ensures { result ≡ of_step (step_at steps.now i) }
{
    match steps[i * STEP_WORDS] {
        0 => caps::INDEXING,
        1 => caps::PROPERTY,
        _ => caps::METHOD,
    }
}

// What so many steps from a first one on need, joined from the last back. Both numbers are words of a chain's record.
fn steps_caps(steps: &[u32], first: usize, count: usize) -> u32
    requires { first + count ≤ steps_in steps.now }
    ensures { result ≡ of_steps (entries (step_at steps.now) first count) }
{
    let mut joined = 0;
    for i in (first..first + count).rev() {
        joined |= step_caps(steps, i);
    }
    joined
}

// What a chain needs: THIS where its root is `this`, and what its steps need.
fn chain_caps(pools: &Pools<'_>, i: usize) -> u32
    requires { ChainWhole pools.now.chains.now pools.now.steps.now i }
    ensures { result ≡ of_chain pools.now.steps.now (chain_at pools.now.chains.now i) }
{
    let at = i * CHAIN_WORDS;
    let root = pools.chains[at];
    let first = pools.chains[at + tables::FIRST_STEP] as usize;
    let count = pools.chains[at + tables::STEPS] as usize;
    let joined = steps_caps(pools.steps, first, count);
    if root == 2 {
        caps::THIS | joined
    } else {
        joined
    }
}

impl<'a> Instruction<'a> {
    // The rights that it needs. That its name and its chain are there is asked for here, and not kept by the type.
    pub fn required_caps(&self) -> u32
        requires has_name { HasName (script_of self.now.script.now) self.now.at }
        requires has_chain { HasChain (script_of self.now.script.now) self.now.at }
        ensures { result ≡ required_rights (script_of self.now.script.now) self.now.at }
    {
        let script = self.script;
        let asked = shapes::asks_of(self.word);
        match asked / caps::NAMED {
            0 => asked,
            1 => asked % caps::NAMED | name_caps(script.pools.names, self.index() as usize),
            _ => chain_caps(&script.pools, self.index() as usize),
        }
    }
}

// What is needed of a word of rights and is not in it.
#[tactic(auto, unfolding(crate::specs::Rights::lacking))]
pub fn lacking(needed: u32, rights: u32) -> u32
    ensures { result ≡ lacking needed rights }
{
    needed - (needed & rights)
}
