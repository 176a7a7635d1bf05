// What one instruction needs, does and leads to: operands, rights, and the places that control goes on to.
// Every answer is fixed by the script and the offset, and is the one of document 01's tables.
// Left to the caller: that an instruction has its width and that what it names is there; `guards` decides it.
#![tactic(auto)]

ghost use Rattle.std.specs.Prelude.{◌≡◌, ◌+◌, ◌≤◌, ◌<◌, length};
ghost use Rattle.code.specs.Layout.{tag_at, index_at};
ghost use Rattle.code.specs.Width.{width_at};
ghost use Rattle.rules.specs.Shapes.{Shape};

use code::Number;
use pools::Pools;

pub mod caps;
pub mod edges;
pub mod effects;
pub mod rights;
pub mod shapes;

// What every chunk is judged by: the code, the lent pools, and the rights that are given.
#[derive(Clone, Copy)]
pub struct Script<'a> {
    pub code: &'a [u8],
    pub pools: Pools<'a>,
    pub rights: u32,
}

// An instruction of a script, which has its width, with the word of its tag (shapes), which is looked up once.
#[derive(Clone, Copy)]
pub struct Instruction<'a> {
    pub script: &'a Script<'a>,
    pub at: usize,
    pub word: u64,
    pub ghost wide: { 0 < width_at script.now.code.now at },
    pub ghost shape: { Shape (tag_at script.now.code.now at) word },
}

// How many operands an instruction needs, pops and pushes.
#[derive(Clone, Copy)]
pub struct Effect {
    pub needs: u32,
    pub pops: u32,
    pub pushes: u32,
}

impl<'a> Instruction<'a> {
    // The instruction at an offset. It is made at every step of a walk, and laid out there its parts need no memory.
    #[inline(always)]
    pub fn at(script: &'a Script<'a>, at: usize) -> Instruction<'a>
        requires { 0 < width_at script.now.code.now at }
        ensures script { result.script.now ≡ script.now }
        ensures at { result.at ≡ at }
    {
        let word = shapes::shape_of(script.code[at]);
        Instruction { script, at, word }
    }

    // The number in the two bytes after the tag, for a caller who knows that they are there.
    fn index(&self) -> u16
        requires { self.now.at + 3 ≤ length self.now.script.now.code.now }
        ensures { result ≡ index_at self.now.script.now.code.now self.now.at }
    {
        let script = self.script;
        u16::read(script.code, self.at + 1)
    }
}
