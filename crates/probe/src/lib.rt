// Exports for the tests from Rust: inner functions behind the C calling convention, total and with no `requires`.
// No part of the product: nothing depends on this crate. Each answer is the numbers of the definition that it cites.
#![tactic(auto)]

ghost use Rattle.std.specs.Prelude.{◌≡◌, length, replicate};
ghost use Rattle.code.specs.Answers.{number_at, number_told, found, found_at, width_told, without};
ghost use Rattle.listing.specs.Listing.{item_told, listed_at};
ghost use Rattle.marks.specs.Places.{bit_at};
ghost use Rattle.probe.specs.Same.{SameTold, SameListed, SetStart, count_of};

use code::NoWidth;
use listing::Ending;

pub mod depths;
pub mod instruction;
pub mod prepared;
pub mod whole;

// An answer in numbers: which case it is, and its value. C interface: an enum does not cross it.
#[repr(C)]
#[derive(Clone, Copy)]
pub struct Told {
    pub number: u64,
    pub value: u64,
}

impl Told {
    // A value was found.
    fn found(value: u64) -> Told
        ensures { SameTold result (found value) }
    {
        Told { number: 0, value }
    }

    // None was, for the reason of this number.
    fn without(why: u64) -> Told
        ensures { SameTold result (without why) }
    {
        Told {
            number: why,
            value: 0,
        }
    }
}

// A listed item in numbers. C interface: an enum does not cross it.
#[repr(C)]
#[derive(Clone, Copy)]
pub struct ListedTold {
    pub number: u64,
    pub at: u64,
    pub tag: u64,
    pub width: u64,
    pub next: u64,
}

#[tactic(auto, unfolding(code::specs::Answers::width_told))]
#[unsafe(no_mangle)]
pub extern "C" fn probe_width(code: &[u8], at: usize) -> Told
    ensures { SameTold result (width_told (found_at code.now at)) }
{
    match code::width_at(code, at) {
        Ok(size) => Told::found(size as u64),
        Err(NoWidth::NoByte) => Told::without(1),
        Err(NoWidth::UnknownTag) => Told::without(2),
        Err(NoWidth::CutOff) => Told::without(3),
    }
}

// A number in numbers: case 0, or case 1 where there is none.
#[tactic(auto, unfolding(code::specs::Answers::number_told))]
fn tell(number: Option<u64>) -> Told
    ensures { SameTold result (number_told number) }
{
    match number {
        Some(value) => Told::found(value),
        None => Told::without(1),
    }
}

#[unsafe(no_mangle)]
pub extern "C" fn probe_u16(code: &[u8], at: usize) -> Told
    ensures { SameTold result (number_told (number_at 2 code.now at)) }
{
    tell(code::number_at::<u16>(code, at).map(u64::from))
}

#[unsafe(no_mangle)]
pub extern "C" fn probe_u32(code: &[u8], at: usize) -> Told
    ensures { SameTold result (number_told (number_at 4 code.now at)) }
{
    tell(code::number_at::<u32>(code, at).map(u64::from))
}

#[tactic(auto, unfolding(listing::specs::Listing::item_told))]
#[unsafe(no_mangle)]
pub extern "C" fn probe_item(code: &[u8], at: usize) -> ListedTold
    ensures { SameListed result (item_told (listed_at code.now at)) }
{
    let nothing = ListedTold {
        number: 1,
        at: 0,
        tag: 0,
        width: 0,
        next: 0,
    };
    match listing::item_at(code, at) {
        Ok(item) => ListedTold {
            number: 0,
            at: item.at as u64,
            tag: u64::from(item.tag),
            width: item.width as u64,
            next: item.next as u64,
        },
        Err(Ending::End) => nothing,
        Err(Ending::NoWidth(place)) => ListedTold {
            number: 2,
            at: place as u64,
            ..nothing
        },
    }
}

#[unsafe(no_mangle)]
pub extern "C" fn probe_clear(marks: &mut [u64])
    ensures { marks.new ≡ replicate (length marks.old) 0 }
{
    marks::clear(marks);
}

// 1 where the place lies within the words, and 0 with nothing stored where it does not.
#[unsafe(no_mangle)]
pub extern "C" fn probe_set_start(marks: &mut [u64], at: usize) -> u32
    ensures { SetStart marks.old at marks.new result }
{
    if marks.len() <= at / 64 {
        return 0;
    }
    marks::set_start(marks, at);
    1
}

#[tactic(auto, using(crate::proofs::Across::bit))]
#[unsafe(no_mangle)]
pub extern "C" fn probe_starts_at(marks: &[u64], at: usize) -> u32
    ensures { result ≡ bit_at marks.now at }
{
    u32::from(marks::starts_at(marks, at))
}

// The count where it fits for sure, and 0 for more words than any test lends.
#[tactic(auto, unfolding(crate::specs::Same::count_of))]
#[unsafe(no_mangle)]
pub extern "C" fn probe_count(marks: &[u64]) -> u64
    ensures { result ≡ count_of marks.now }
{
    if 65536 < marks.len() {
        return 0;
    }
    marks::count(marks)
}
