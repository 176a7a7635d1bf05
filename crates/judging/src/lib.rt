// The chunks, over flat spans: each opened, walked item by item, and closed.
// The answer and the heights are those of document 01's chunks upward, and records and work are zero again on return.
// Left to `verify`: everything before the chunks, the marks and the verdict.
#![tactic(auto)]

ghost use Rattle.std.specs.Prelude.{[], ◌∷◌, ◌≡◌, ◌+◌, ◌≤◌, ◌<◌, min, length, replicate};
ghost use Rattle.pools.specs.Sizes.{max_chunks};
ghost use Rattle.rules.specs.FromLists.{script_of};
ghost use Rattle.judging.specs.Spans.{spans_of};
ghost use Rattle.judging.specs.Judges.{Judges};

use answer::Refusal;
use opening::Checked;
use walk::{Turn, chunk, item};

// What chunks that pass have counted together: the instructions entered, and the items taken.
#[derive(Clone, Copy)]
pub struct Sums {
    pub reached: u64,
    pub taken: u64,
}

// The first chunk that fails, by its number, and why.
#[derive(Clone, Copy)]
pub struct Refused {
    pub chunk: u32,
    pub refusal: Refusal,
}

// The least of three numbers.
pub fn least(a: usize, b: usize, c: usize) -> usize
    ensures { result ≡ min a (min b c) }
{
    a.min(b).min(c)
}

// Judges the chunks of flat spans, of which the first has this number. Document 01 names this form: nested loops over
// chunks and work items, left by a label that carries the refusal. Records and work are taken zero and left zero.
pub fn judge_spans(
    checked: &Checked<'_>,
    entries: &[u32],
    ends: &[u32],
    declared: &[u16],
    first: u32,
    heights: &mut [u16],
    records: &mut [u32],
    work: &mut [u32],
) -> Result<Sums, Refused>
    requires records_value { records.old ≡ replicate (length records.old) 0 }
    requires work_value { work.old ≡ replicate (length work.old) 0 }
    requires declared_len_bound { length (spans_of entries.now ends.now declared.now) ≤ max_chunks }
    requires declared_in_bounds { first + length (spans_of entries.now ends.now declared.now) ≤ length heights.old }
    requires first_le_max_chunks { first ≤ max_chunks }
    ensures { Judges (script_of checked.now.script.now) (length records.old) (length work.old)
        (spans_of entries.now ends.now declared.now) first heights.old
        result heights.new records.new work.new }
{
    let count = least(entries.len(), ends.len(), declared.len());
    let mut reached: u64 = 0;
    let mut taken: u64 = 0;
    'call: {
        for at in 0..count {
            let chunk = first + at as u32;
            let room = match opening::open_span(
                checked.script,
                checked.marks,
                entries[at],
                ends[at],
                records,
                work,
            ) {
                Ok(room) => room,
                Err(refusal) => break 'call Err(Refused { chunk, refusal }),
            };
            let mut hand = chunk::first_item(room, records);
            let last = 'items: loop {
                let turn = match item::take_item(checked, room, hand, records, work) {
                    Ok(turn) => turn,
                    Err(refusal) => {
                        chunk::abandon(room.base, hand.waiting, records, work);
                        break 'call Err(Refused { chunk, refusal });
                    }
                };
                match turn {
                    Turn::Next(next) => hand = next,
                    Turn::Done(done) => break 'items done,
                }
            };
            let closed = chunk::close_chunk(
                room.base,
                last.height,
                declared[at],
                chunk as usize,
                heights,
                records,
            );
            if let Err(refusal) = closed {
                break 'call Err(Refused { chunk, refusal });
            }
            reached += last.reached;
            taken += last.taken;
        }
        Ok(Sums { reached, taken })
    }
}

// Judges one chunk, given by three numbers: the same on one span.
pub fn verify_span(
    checked: &Checked<'_>,
    entry: u32,
    end: u32,
    declared: u16,
    number: u32,
    heights: &mut [u16],
    records: &mut [u32],
    work: &mut [u32],
) -> Result<Sums, Refused>
    requires records_value { records.old ≡ replicate (length records.old) 0 }
    requires work_value { work.old ≡ replicate (length work.old) 0 }
    requires number_in_bounds { number < length heights.old }
    requires number_le_max_chunks { number ≤ max_chunks }
    ensures { Judges (script_of checked.now.script.now) (length records.old) (length work.old)
        (record { entry = entry; end = end; declared = declared } ∷ []) number heights.old
        result heights.new records.new work.new }
{
    judge_spans(
        checked,
        &[entry],
        &[end],
        &[declared],
        number,
        heights,
        records,
        work,
    )
}
