// One item taken: dropped, entered or refused, and then the next one in hand.
ghost use Rattle.std.specs.Prelude.{cond, ◌&&◌, ◌≡◌, ◌+◌, ◌*◌, ◌^◌, ◌≤◌, ◌<◌, ltb, eqb, length, get_or, take};
ghost use Rattle.std.proofs.Math.Option.{none};
ghost use Rattle.order.specs.Order.{Rising, below};
ghost use Rattle.rules.specs.Edges.{targets};
ghost use Rattle.rules.specs.FromLists.{script_of};
ghost use Rattle.rules.specs.There.{HasSwitch};
ghost use Rattle.words.specs.Seen.{seen_told, seen_at, note_at};
ghost use Rattle.words.specs.Stack.{Clear};
ghost use Rattle.walk.specs.Leaving.{Pushed, BackOrDone, RoomToLeave, InstructionLeft};
ghost use Rattle.walk.specs.Hand.{fallen, dropped_hand, entered_hand};
ghost use Rattle.walk.specs.Turn.{AtItem, Unseen, ItemTaken};

use crate::{Counts, Hand, NO_DEPTHS, Turn};
use answer::{Depths, Refusal};
use opening::{Checked, Room};
use rules::Instruction;
use ruling::Edges;
use words::{seen, stack};

// Is the key of this number this place?
fn is_key(keys: &[u32], slot: usize, place: u32) -> bool
    ensures { result ≡ (ltb slot (length keys.now) && eqb (get_or keys.now slot 0) place) }
{
    keys.get(slot) == Some(&place)
}

// What was seen at the place in hand: asked of the keys only.
#[tactic(auto, unfolding(words::specs::Seen::seen_told))]
fn seen_at(records: &[u32], room: Room, slot: usize, place: u32) -> Option<Depths>
    requires keys_in_bounds { room.keys ≤ length records.now }
    requires keys_in_bounds_2 { room.base + room.keys * 3 ≤ length records.now }
    ensures { seen_told result ≡ cond (ltb slot room.keys && eqb (get_or records.now slot 0) place)
        (seen_at records.now (room.base + slot * 3)) none }
{
    if is_key(&records[..room.keys], slot, place) {
        seen::recall(records, room.base + slot * 3)
    } else {
        None
    }
}

// Notes the depths at the place in hand, where it is a key.
fn note_at(records: &mut [u32], room: Room, slot: usize, place: u32, d: Depths)
    requires keys_in_bounds { room.keys ≤ length records.old }
    requires keys_in_bounds_2 { room.base + room.keys * 3 ≤ length records.old }
    requires operands_bound { d.operands + 1 < 2 ^ 32 }
    ensures { records.new ≡ cond
        (ltb slot room.keys && eqb (get_or records.old slot 0) place)
        (note_at records.old (room.base + slot * 3) d) records.old }
{
    if is_key(&records[..room.keys], slot, place) {
        seen::note(records, room.base + slot * 3, d);
    }
}

// Pushes an item for each target of an instruction, so many of them, counted before, and tells how many wait then.
// `target` asks for the switch, here and in `leave`.
#[tactic(auto, using(crate::proofs::Parts::none_pushed, crate::proofs::Parts::one_pushed, crate::proofs::Parts::all_pushed))]
fn push_jumps(
    instruction: &Instruction<'_>,
    count: usize,
    d: Depths,
    waiting: usize,
    work: &mut [u32],
) -> usize
    requires has_switch { HasSwitch (script_of instruction.now.script.now) instruction.now.at }
    requires count_value { count ≡ length (targets (script_of instruction.now.script.now) instruction.now.at) }
    requires at_in_bounds { (waiting + length (targets (script_of instruction.now.script.now) instruction.now.at)) * 4
        ≤ length work.old }
    ensures { Pushed
        (targets (script_of instruction.now.script.now) instruction.now.at)
        d waiting work.old result work.new }
{
    for k in 0..count {
        let target = instruction.target(k);
        stack::put(work, waiting + k, target, d);
    }
    waiting + count
}

// Falls through: the next place in hand, found among the keys by moving along.
fn fall_to(hand: Hand, next: u32, d: Depths, keys: &[u32]) -> Hand
    requires rising { Rising keys.now }
    requires slot_bound { hand.slot ≤ below keys.now next }
    ensures { result ≡ fallen keys.now hand next d }
{
    let slot = order::advance(keys, hand.slot, next);
    Hand {
        place: next,
        depths: d,
        slot,
        ..hand
    }
}

// Takes the item pushed last, and clears its words.
fn take_back(hand: Hand, keys: &[u32], work: &mut [u32]) -> Turn
    requires rising { Rising keys.now }
    requires waiting_in_bounds { hand.waiting * 4 ≤ length work.old }
    requires clear { Clear work.old hand.waiting }
    ensures { BackOrDone keys.now hand work.old result work.new }
{
    if hand.waiting == 0 {
        return Turn::Done(hand.counts);
    }
    let waiting = hand.waiting - 1;
    let top = stack::item_at(work, waiting);
    stack::put(work, waiting, 0, NO_DEPTHS);
    Turn::Next(Hand {
        place: top.place,
        depths: top.depths,
        slot: order::find(keys, top.place),
        waiting,
        counts: hand.counts,
    })
}

// An item that is dropped is taken all the same.
fn drop_item(hand: Hand) -> Hand
    requires { hand.counts.taken + 1 < 2 ^ 64 }
    ensures { result ≡ dropped_hand hand }
{
    Hand {
        counts: Counts {
            taken: hand.counts.taken + 1,
            ..hand.counts
        },
        ..hand
    }
}

// An item enters an instruction that leaves so many operands: it counts, and the operands before and after it do.
fn enter_item(hand: Hand, post: u32, waiting: usize) -> Hand
    requires taken_bound { hand.counts.taken + 1 < 2 ^ 64 }
    requires reached_bound { hand.counts.reached + 1 < 2 ^ 64 }
    ensures { result ≡ entered_hand hand post waiting }
{
    let most = hand.depths.operands.max(post);
    Hand {
        waiting,
        counts: Counts {
            reached: hand.counts.reached + 1,
            taken: hand.counts.taken + 1,
            height: hand.counts.height.max(most),
        },
        ..hand
    }
}

// The edges of an instruction whose tests have all passed: its depths are noted, its jumps pushed, so many of them, and
// the next item is what falls through, or else the one pushed last.
#[tactic(auto, using(crate::proofs::Leaving::keys_kept, crate::proofs::Leaving::nothing_above))]
fn leave(
    instruction: &Instruction<'_>,
    count: usize,
    room: Room,
    hand: Hand,
    edges: Edges,
    records: &mut [u32],
    work: &mut [u32],
) -> Turn
    requires has_switch { HasSwitch (script_of instruction.now.script.now) instruction.now.at }
    requires count_value { count ≡ length (targets (script_of instruction.now.script.now) instruction.now.at) }
    requires room_to_leave { RoomToLeave room hand edges.next
        (targets (script_of instruction.now.script.now) instruction.now.at) records.old work.old }
    ensures { InstructionLeft room hand edges
        (targets (script_of instruction.now.script.now) instruction.now.at)
        records.old work.old result records.new work.new }
{
    note_at(records, room, hand.slot, hand.place, hand.depths);
    let keys = &records[..room.keys];
    let jumped = edges.jumped;
    let waiting = push_jumps(instruction, count, jumped, hand.waiting, work);
    let entered = enter_item(hand, edges.after.operands, waiting);
    if edges.falls {
        return Turn::Next(fall_to(entered, edges.next, edges.after, keys));
    }
    take_back(entered, keys, work)
}

// An item at a place that was not seen before: its rule, the tests of its jumps, and its edges.
fn enter(
    checked: &Checked<'_>,
    room: Room,
    hand: Hand,
    records: &mut [u32],
    work: &mut [u32],
) -> Result<Turn, Refusal>
    requires at_item { AtItem (script_of checked.now.script.now) room hand records.old work.old }
    requires unseen { Unseen (script_of checked.now.script.now) room hand records.old }
    ensures { ItemTaken (script_of checked.now.script.now) room hand records.old work.old
        result records.new work.new }
{
    let instruction = Instruction::at(checked.script, hand.place as usize);
    let edges = ruling::rule_of(&instruction, room.end, hand.depths)?;
    let count = instruction.target_count() as usize;
    ruling::check_jumps(&instruction, count, checked.marks, room.entry, room.end)?;
    Ok(leave(&instruction, count, room, hand, edges, records, work))
}

// One item: 13 at or past the end; dropped, or 11, at a place seen before; else its instruction is entered.
#[tactic(auto, using(crate::proofs::Taking::drops, crate::proofs::Taking::conflicts))]
pub fn take_item(
    checked: &Checked<'_>,
    room: Room,
    hand: Hand,
    records: &mut [u32],
    work: &mut [u32],
) -> Result<Turn, Refusal>
    requires { AtItem (script_of checked.now.script.now) room hand records.old work.old }
    ensures { ItemTaken (script_of checked.now.script.now) room hand records.old work.old
        result records.new work.new }
{
    if room.end <= hand.place {
        return Err(Refusal::FallsOffTheEnd);
    }
    match seen_at(records, room, hand.slot, hand.place) {
        None => enter(checked, room, hand, records, work),
        Some(expected) => {
            let found = hand.depths;
            let keys = &records[..room.keys];
            if expected == found {
                return Ok(take_back(drop_item(hand), keys, work));
            }
            Err(Refusal::DepthConflict {
                at: hand.place as u64,
                expected,
                found,
            })
        }
    }
}
