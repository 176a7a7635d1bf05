// A reader: the lent code and a place in it, for a caller who takes the items in turn. `take_item` gives the item at
// the reader's place and the reader past it; after an ending the reader stays, so the same ending is read again.
// The work is done on the slice and the offset. Methods of the reader only take it apart and put it together.
#![tactic(auto)]

ghost use Rattle.std.specs.Iterator.{YieldsFirst, item_count};
ghost use Rattle.std.specs.Prelude.{◌≡◌};
ghost use Rattle.listing.specs.Listing.{listed_at};
ghost use Rattle.reader.specs.Items.{items_from};
ghost use Rattle.reader.specs.Reading.{place_after};

use listing::{Ending, Item};

// The lent code, and the reader's own place in it.
#[derive(Clone, Copy)]
pub struct Reader<'a> {
    pub code: &'a [u8],
    pub at: usize,
}

// What was read, and the reader past it.
#[derive(Clone, Copy)]
pub struct Step<'a> {
    pub item: Result<Item, Ending>,
    pub rest: Reader<'a>,
}

impl<'a> Reader<'a> {
    // A reader at the code's first byte.
    pub fn from_start(code: &'a [u8]) -> Reader<'a>
        ensures { (result.code ≡ code.entry) × (result.at ≡ 0) }
    {
        Reader { code, at: 0 }
    }

    // What stands at the reader's place.
    pub fn next_item(self) -> Result<Item, Ending>
        ensures { result ≡ listed_at self.entry.code.now self.entry.at }
    {
        listing::item_at(self.code, self.at)
    }

    // What stands at the reader's place, and the reader past it.
    pub fn take_item(self) -> Step<'a>
        ensures { (result.item ≡ listed_at self.entry.code.now self.entry.at)
            × ((result.rest.code ≡ self.entry.code)
            × (result.rest.at ≡ place_after (listed_at self.entry.code.now self.entry.at) self.entry.at)) }
    {
        let item = self.next_item();
        let at = place_after(item, self.at);
        Step {
            item,
            rest: Reader {
                code: self.code,
                at,
            },
        }
    }
}

// The instructions from the reader's place on, in turn, up to the ending. The reader moves as by `take_item`: past an
// instruction, and after an ending it stays.
impl<'a> Iterator for Reader<'a> {
    type Item = Item;

    ghost next_gives = { λ s r t. YieldsFirst (λ z. items_from z.code.now z.at) s r t
        × ((t.code ≡ s.code) × (t.at ≡ place_after (listed_at s.code.now s.at) s.at)) };

    ghost remaining = { item_count (λ s. items_from s.code.now s.at) };

    #[tactic(auto, using(crate::proofs::Items::first_item, crate::proofs::Items::no_item), unfolding(crate::specs::Reading::place_after))]
    fn next(&mut self) -> Option<Item> {
        let item = self.next_item().ok()?;
        self.at = item.next;
        Some(item)
    }
}

// The place after an item that was read at `at`: past an instruction, and the same place where there is none.
#[tactic(auto, unfolding(crate::specs::Reading::place_after))]
fn place_after(item: Result<Item, Ending>, at: usize) -> usize
    ensures { result ≡ place_after item at }
{
    match item {
        Ok(item) => item.next,
        Err(_) => at,
    }
}

// What was read, and the place after it.
#[derive(Clone, Copy)]
pub struct Taken {
    pub item: Result<Item, Ending>,
    pub next: usize,
}

// What a reader at an offset reads, and its place after that. A caller of it names no reader.
pub fn read_next(code: &[u8], at: usize) -> Taken
    ensures { (result.item ≡ listed_at code.now at)
        × (result.next ≡ place_after (listed_at code.now at) at) }
{
    let step = Reader { code, at }.take_item();
    Taken {
        item: step.item,
        next: step.rest.at,
    }
}
