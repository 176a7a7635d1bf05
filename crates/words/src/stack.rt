// Work as a stack of items, four words each: place, operands, iterators, handlers.
ghost use Rattle.std.specs.Prelude.{◌≡◌, ◌+◌, ◌*◌, ◌≤◌, length};
ghost use Rattle.words.specs.Stack.{item_at, put};

use answer::Depths;

// A place, and the depths there.
#[derive(Clone, Copy)]
pub struct Waiting {
    pub place: u32,
    pub depths: Depths,
}

// Puts an item where the item of this number stands.
pub fn put(work: &mut [u32], i: usize, place: u32, d: Depths)
    requires { i * 4 + 4 ≤ length work.old }
    ensures { work.new ≡ put work.old i (record { place = place; depths = d }) }
{
    let at = i * 4;
    work[at] = place;
    work[at + 1] = d.operands;
    work[at + 2] = d.iterators;
    work[at + 3] = d.handlers;
}

// The item of this number.
pub fn item_at(work: &[u32], i: usize) -> Waiting
    requires { i * 4 + 4 ≤ length work.now }
    ensures { record { place = result.place; depths = result.depths } ≡ item_at work.now i }
{
    let at = i * 4;
    Waiting {
        place: work[at],
        depths: Depths {
            operands: work[at + 1],
            iterators: work[at + 2],
            handlers: work[at + 3],
        },
    }
}
