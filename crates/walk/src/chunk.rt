// The ends of a chunk's walk: the first item in hand, and what is cleared, tested and stored when none is left.
ghost use Rattle.std.specs.Prelude.{◌≡◌, ◌*◌, ◌≤◌, ◌<◌, length, take};
ghost use Rattle.order.specs.Order.{Rising};
ghost use Rattle.walk.specs.Ends.{Abandoned, Closed};
ghost use Rattle.walk.specs.Hand.{first_hand};

use crate::{Counts, Hand, NO_DEPTHS};
use answer::Refusal;
use opening::Room;

// The item that the walk starts with: the entry, with zeros.
pub fn first_item(room: Room, records: &[u32]) -> Hand
    requires keys_in_bounds { room.keys ≤ length records.now }
    requires rising { Rising (take room.keys records.now) }
    ensures { result ≡ first_hand (take room.keys records.now) room.entry }
{
    let slot = order::find(&records[..room.keys], room.entry);
    Hand {
        place: room.entry,
        depths: NO_DEPTHS,
        slot,
        waiting: 0,
        counts: Counts::default(),
    }
}

// After a refusal: clears what the walk used of records, and the items that wait in work.
pub fn abandon(base: usize, waiting: usize, records: &mut [u32], work: &mut [u32])
    requires base_in_bounds { base * 4 ≤ length records.old }
    requires waiting_in_bounds { waiting * 4 ≤ length work.old }
    ensures { Abandoned (base * 4) (waiting * 4) records.old work.old
        records.new work.new }
{
    order::clear_first(records, base * 4);
    order::clear_first(work, waiting * 4);
}

// After the last item: clears what the walk used of records, and stores the height where it is not above the declared
// one, 14.
#[tactic(auto, unfolding(answer::specs::Answer::told, demand::specs::Chunk::height_test))]
pub fn close_chunk(
    base: usize,
    height: u32,
    declared: u16,
    chunk: usize,
    heights: &mut [u16],
    records: &mut [u32],
) -> Result<(), Refusal>
    requires base_in_bounds { base * 4 ≤ length records.old }
    requires chunk_in_bounds { chunk < length heights.old }
    ensures { Closed (base * 4) height declared chunk heights.old records.old
        result heights.new records.new }
{
    order::clear_first(records, base * 4);
    if (declared as u32) < height {
        return Err(Refusal::StackExceedsDeclared {
            needed: height,
            declared,
        });
    }
    heights[chunk] = height as u16;
    Ok(())
}
