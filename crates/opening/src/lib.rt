// A chunk opened: its own tests before its walk, its instructions listed, and its targets put in order in records.
// The answer is document 01's on these tests, and every word of records and of work is told; a refusal leaves zeros.
// The walk itself is left to `walk`, and what must hold of a script before its chunks to `before`.
#![tactic(auto)]

ghost use Rattle.std.specs.Prelude.{◌≡◌, ℕ, ◌+◌, ◌-◌, ◌^◌, ◌≤◌, ◌<◌, length, drop, replicate};
ghost use Rattle.rules.specs.Edges.{targets};
ghost use Rattle.rules.specs.FromLists.{script_of};
ghost use Rattle.opening.specs.Listing.{fall_at, OneListed, EntryStored, AllListed};
ghost use Rattle.opening.specs.Opens.{lent_test, KeysLaid, OpenedAs};
ghost use Rattle.opening.specs.Ready.{Listable, Ready, Marked, Tells, span_of};
ghost use Rattle.rules.specs.There.{HasSwitch};
ghost use Rattle.demand.specs.Span.{InCode};
ghost use Rattle.answer.specs.Answer.{told};
ghost use Rattle.demand.specs.Chunk.{span_test, room_test};

use answer::{Buffer, Refusal};
use rules::{Instruction, Script};

// A script that passed everything before its chunks, and the marks of its starts.
#[derive(Clone, Copy)]
pub struct Checked<'a> {
    pub script: &'a Script<'a>,
    pub marks: &'a [u64],
    pub ghost ready: { Ready (script_of script.now) },
    pub ghost marked: { Tells marks.now script.now.code.now },
}

// A chunk that is ready to be walked: where it starts and ends, the index in records from which depths are kept, and
// how many keys stand before that.
#[derive(Clone, Copy, PartialEq, Eq)]
pub struct Room {
    pub entry: u32,
    pub end: u32,
    pub base: usize,
    pub keys: usize,
}

// What the instructions listed so far come to: their targets, repeats counted; their edges; and how many words of
// records are in use, the entry first.
#[derive(Clone, Copy, PartialEq, Eq)]
pub struct Tally {
    pub targets: u64,
    pub edges: u64,
    pub stored: usize,
}

// Stores an instruction's targets, in as many words. `target` asks for the switch, here and for those who call this.
fn store_targets(instruction: &Instruction<'_>, slots: &mut [u32])
    requires has_switch { HasSwitch (script_of instruction.now.script.now) instruction.now.at }
    requires as_many { length slots.old ≡ length (targets (script_of instruction.now.script.now) instruction.now.at) }
    ensures { slots.new ≡ targets (script_of instruction.now.script.now) instruction.now.at }
{
    for (k, slot) in slots.iter_mut().enumerate() {
        *slot = instruction.target(k);
    }
}

// One instruction: it adds to both counts, and its targets are stored while there is room.
pub fn list_instruction(instruction: &Instruction<'_>, before: Tally, records: &mut [u32]) -> Tally
    requires has_switch { HasSwitch (script_of instruction.now.script.now) instruction.now.at }
    requires stored_in_bounds { before.stored ≤ length records.old }
    requires at_bound { before.targets
        + length (targets (script_of instruction.now.script.now) instruction.now.at) < 2 ^ 63 }
    requires at_bound_2 { before.edges
        + length (targets (script_of instruction.now.script.now) instruction.now.at) < 2 ^ 63 }
    ensures { OneListed
        (targets (script_of instruction.now.script.now) instruction.now.at)
        (fall_at (script_of instruction.now.script.now) instruction.now.at)
        before records.old result records.new }
{
    let count = instruction.target_count();
    let edges = instruction.flow().edge_count(count);
    let stored = before.stored;
    let mut listed = Tally {
        targets: before.targets + count,
        edges: before.edges + edges,
        stored,
    };
    if count <= (records.len() - stored) as u64 {
        let more = count as usize;
        store_targets(instruction, &mut records[stored..stored + more]);
        listed.stored += more;
    }
    listed
}

// Stores the entry, where there is a word for it, and tells how many words are in use.
fn store_entry(entry: u32, records: &mut [u32]) -> usize
    requires { records.old ≡ replicate (length records.old) 0 }
    ensures { EntryStored entry (length records.old) result records.new }
{
    if records.is_empty() {
        return 0;
    }
    records[0] = entry;
    1
}

// All instructions from an entry to an end.
pub fn list_chunk(script: &Script<'_>, entry: u32, end: u32, records: &mut [u32]) -> Tally
    requires listable { Listable script.now.code.now script.now.pools.switches.now script.now.pools.cases.now
        script.now.pools.ranges.now }
    requires in_code { InCode script.now.code.now entry end }
    requires records_value { records.old ≡ replicate (length records.old) 0 }
    ensures { AllListed (script_of script.now) entry end (length records.old) result records.new }
{
    let mut listed = Tally {
        targets: 0,
        edges: 0,
        stored: store_entry(entry, records),
    };
    let mut at = entry as usize;
    // No range: the step is the width of the instruction that is there.
    while at < end as usize {
        let instruction = Instruction::at(&*script, at);
        listed = list_instruction(&instruction, listed, records);
        at += instruction.width();
    }
    listed
}

// Kinds 7 and 8: does the chunk lie in the code, and does it start where an instruction starts or the code ends?
#[tactic(auto, using(crate::proofs::Tests::span_tests), unfolding(answer::specs::Answer::told))]
fn check_span(script: &Script<'_>, marks: &[u64], entry: u32, end: u32) -> Result<(), Refusal>
    requires { Tells marks.now script.now.code.now }
    ensures { told result ≡ span_test script.now.code.now entry end }
{
    let length = script.code.len();
    if end < entry || length < end as usize {
        return Err(Refusal::ChunkOutOfRange { entry, end });
    }
    if marks::starts_at(marks, entry as usize) || entry as usize == length {
        Ok(())
    } else {
        Err(Refusal::Misaligned(entry))
    }
}

// Kind 3 of one buffer: are the lent words enough? `before::check_room` is the same of a count that fits a `usize` and
// of any buffer's number; this crate does not stand on that one.
#[tactic(auto, unfolding(answer::specs::Answer::told, crate::specs::Opens::lent_test))]
fn enough(needed: u64, lent: usize, buffer: Buffer) -> Result<(), Refusal>
    ensures { told result ≡ lent_test needed lent buffer }
{
    if (lent as u64) < needed {
        Err(Refusal::NoRoom {
            needed,
            buffer: buffer as u64,
        })
    } else {
        Ok(())
    }
}

// Kind 3, of so many targets and edges: are the lent words of records enough, and then those of work? What is needed
// can pass 32 bits.
fn check_room(targets: u64, edges: u64, records: usize, work: usize) -> Result<(), Refusal>
    requires targets_bound { targets < 2 ^ 40 }
    requires edges_bound { edges < 2 ^ 40 }
    ensures { told result ≡ room_test targets edges records work }
{
    enough(4 * (1 + targets), records, Buffer::Records)?;
    enough(4 * (1 + edges), work, Buffer::Work)
}

// Puts the first words of records in order, each once, with work as the spare. Tells how many are left. It takes all of
// records, since its contract says what the words behind hold.
fn lay_keys(count: usize, records: &mut [u32], work: &mut [u32]) -> usize
    requires count_in_bounds { count ≤ length records.old }
    requires count_in_bounds_2 { count ≤ length work.old }
    requires records_value { drop count records.old ≡ replicate (length records.old - count) 0 }
    requires work_value { work.old ≡ replicate (length work.old) 0 }
    ensures { KeysLaid count records.old work.old result records.new
        work.new }
{
    order::put_in_order(&mut records[..count], work)
}

// Opens a chunk, with records and work cleared. Before a refusal for room what was stored is cleared again.
pub fn open_span(
    script: &Script<'_>,
    marks: &[u64],
    entry: u32,
    end: u32,
    records: &mut [u32],
    work: &mut [u32],
) -> Result<Room, Refusal>
    requires listable { Listable script.now.code.now script.now.pools.switches.now script.now.pools.cases.now
        script.now.pools.ranges.now }
    requires marked { Marked marks.now script.now.code.now }
    requires records_value { records.old ≡ replicate (length records.old) 0 }
    requires work_value { work.old ≡ replicate (length work.old) 0 }
    ensures { (declared : ℕ) → OpenedAs (script_of script.now)
        (span_of entry end declared) (length records.old) (length work.old)
        result records.new work.new }
{
    check_span(script, marks, entry, end)?;
    let listed = list_chunk(script, entry, end, records);
    if let Err(refusal) = check_room(listed.targets, listed.edges, records.len(), work.len()) {
        order::clear_first(records, listed.stored);
        return Err(refusal);
    }
    let base = listed.stored;
    let keys = lay_keys(base, records, work);
    Ok(Room {
        entry,
        end,
        base,
        keys,
    })
}
