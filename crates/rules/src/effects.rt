// What an instruction does to the operands: document 01's table of needs, pops and pushes.
ghost use Rattle.std.specs.Prelude.{true, List, ◌≡◌, ℕ, ◌+◌, ◌*◌, ◌/◌, ◌%◌, ◌<◌};
ghost use Rattle.code.specs.Layout.{tag_at, count_at};
ghost use Rattle.code.specs.Width.{width_at};
ghost use Rattle.rules.specs.Acts.{Acts};
ghost use Rattle.rules.specs.FromLists.{script_of};
ghost use Rattle.rules.specs.Shapes.{simple, Shape};
ghost use Rattle.rules.specs.There.{HasChainEntry};

use crate::{Effect, Instruction};
use code::{Number, tag};
use pools::CHAIN_WORDS;

// The count n among an instruction's operands, 0 where it has none. The word is that of its tag. It takes the code and
// not the instruction: of a code two references away the proof does not know that `at + place` fits.
fn count_at(word: u64, code: &[u8], at: usize) -> u16
    requires shape { Shape (tag_at code.now at) word }
    requires wide { 0 < width_at code.now at }
    ensures { result ≡ count_at code.now at }
{
    let place = (word / 0x1_0000 % 16) as usize;
    if place == 0 {
        return 0;
    }
    if place < 8 {
        return code[at + place] as u16;
    }
    u16::read(code, at + (place - 8))
}

// What a tag's word says of an instruction with the count n.
#[tactic(auto, using(crate::proofs::Amounts::part_small))]
fn counted(word: u64, n: u16) -> Effect
    ensures { result ≡ record {
      needs = word % 4 + word / 4 % 4 * n;
      pops = word / 16 % 4 + word / 64 % 4 * n;
      pushes = word / 256 % 16;
    } }
{
    let times = n as u32;
    Effect {
        needs: (word % 4) as u32 + (word / 4 % 4) as u32 * times,
        pops: (word / 16 % 4) as u32 + (word / 64 % 4) as u32 * times,
        pushes: (word / 256 % 16) as u32,
    }
}

// The effect of an instruction with a simple word.
pub fn fixed_effect(word: u64) -> Effect
    ensures { (code chains : List ℕ) (at : ℕ) → Shape (tag_at code at) word → simple word ≡ true
        → 0 < width_at code at → Acts code chains at result }
{
    counted(word, 0)
}

impl<'a> Instruction<'a> {
    // How many operands it needs, pops and pushes.
    pub fn effect(&self) -> Effect
        requires { HasChainEntry (script_of self.now.script.now) self.now.at }
        ensures { Acts self.now.script.now.code.now self.now.script.now.pools.chains.now self.now.at result }
    {
        let script = self.script;
        // A CHAIN goes by the operands k of its entry, any other instruction by its count n.
        if script.code[self.at] == tag::CHAIN {
            let i = self.index() as usize;
            let k = script.pools.chains[i * CHAIN_WORDS + 2];
            return Effect {
                needs: k,
                pops: k,
                pushes: 1,
            };
        }
        counted(self.word, count_at(self.word, script.code, self.at))
    }
}
