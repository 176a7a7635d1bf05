// The listing for other languages: one instruction at an offset, in numbers.
ghost use Rattle.std.specs.Prelude.{◌≡◌};
ghost use Rattle.listing.specs.Listing.{item_told, listed_at};
ghost use Rattle.grain.specs.Items.{item_numbers, ending_of};

use listing::Ending;

// What stands at an offset, by kind: 0 an instruction, 1 the code's end, 2 a byte without a width. What a kind has no
// use for is 0. C interface: an enum does not cross it, so the kind is a number.
#[repr(C)]
#[derive(Clone, Copy)]
pub struct Item {
    pub kind: u32,
    pub tag: u32,
    pub at: u64,
    pub width: u64,
    pub next: u64,
}

// What stands at an offset of the code, whatever the offset.
#[tactic(auto, unfolding(listing::specs::Listing::item_told))]
#[unsafe(no_mangle)]
pub extern "C" fn grain_item_at(code: &[u8], at: usize) -> Item
    ensures { item_numbers result ≡ item_told (listed_at code.now at) }
{
    match listing::item_at(code, at) {
        Ok(item) => Item {
            kind: 0,
            tag: u32::from(item.tag),
            at: item.at as u64,
            width: item.width as u64,
            next: item.next as u64,
        },
        Err(Ending::End) => ending(1, 0),
        Err(Ending::NoWidth(place)) => ending(2, place),
    }
}

// No instruction, for the reason of this kind.
fn ending(kind: u32, at: usize) -> Item
    ensures { result ≡ ending_of kind at }
{
    Item {
        kind,
        tag: 0,
        at: at as u64,
        width: 0,
        next: 0,
    }
}
