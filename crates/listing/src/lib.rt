// The instructions of the code in turn: what stands at an offset, and the offset after it.
// Every answer is fixed by the bytes and the offset. From 0 on the answers are the starts, in order and each once, and
// then the ending. What an instruction does is left to `rules`.
#![tactic(auto)]

ghost use Rattle.std.specs.Prelude.{◌≡◌};
ghost use Rattle.listing.specs.Listing.{listed_at};

use code::NoWidth;

// An instruction: its offset, tag and width, and the offset after it.
#[derive(Clone, Copy)]
pub struct Item {
    pub at: usize,
    pub tag: u8,
    pub width: usize,
    pub next: usize,
}

// Why no instruction stands at an offset: the code's end, or a byte without a width, with its offset.
#[derive(Clone, Copy, PartialEq, Eq)]
pub enum Ending {
    End,
    NoWidth(usize),
}

// What stands at an offset.
#[tactic(auto, using(crate::proofs::Items::listed_there, crate::proofs::Items::listed_end, crate::proofs::Items::listed_none, code::proofs::Widths::wide))]
pub fn item_at(code: &[u8], at: usize) -> Result<Item, Ending>
    ensures { result ≡ listed_at code.now at }
{
    let width = code::width_at(code, at).map_err(|why| match why {
        NoWidth::NoByte => Ending::End,
        NoWidth::UnknownTag | NoWidth::CutOff => Ending::NoWidth(at),
    })?;
    Ok(Item {
        at,
        tag: code[at],
        width,
        next: at + width,
    })
}
