// The call in stages: everything before the chunks, chunk after chunk, and the end.
ghost use Rattle.std.specs.Prelude.{◌≡◌, length};
ghost use Rattle.before.specs.Parameters.{input_of};
ghost use Rattle.rules.specs.FromLists.{script_of};
ghost use Rattle.verify.specs.Stages.{BothClear, Begins, Advances, Fits, ReadyForChunk, Takes, finished};

use answer::verdict::{NO_CHUNK, Verdict, verdict_of};
use answer::{Accepted, Refusal};
use before::Input;
use judging::{Refused, Sums};
use opening::Checked;
use rules::Script;

// A call between two stages: it goes on, with what is counted so far, or it has ended with its verdict.
pub type State = Result<Accepted, Verdict>;

// Zeroes all of records and work.
fn clear_both(records: &mut [u32], work: &mut [u32])
    ensures { BothClear records.old work.old records.new work.new }
{
    records.fill(0);
    work.fill(0);
}

// Everything before the chunks, with room for so many heights. Records and work are zeroed at the first store, which
// kinds 1 to 3 come before.
#[tactic(auto, using(crate::proofs::Between::marks_fit), unfolding(crate::specs::Stages::opened, crate::specs::Stages::words_on, answer::specs::Answer::told, answer::specs::Answer::numbered, answer::specs::Answer::refused))]
pub fn begin(
    input: &Input<'_>,
    room: usize,
    marks: &mut [u64],
    records: &mut [u32],
    work: &mut [u32],
) -> State
    ensures { Begins (input_of input.now) room marks.old records.old work.old
        result marks.new records.new work.new }
{
    match before::before_chunks(input, marks, room) {
        Ok(()) => {
            clear_both(records, work);
            Ok(Accepted {
                instructions: marks::count(marks),
                reached: 0,
                taken: 0,
            })
        }
        Err(refusal) => {
            let early = matches!(
                refusal,
                Refusal::TooLarge(_) | Refusal::BadTable { .. } | Refusal::NoRoom { .. }
            );
            if !early {
                clear_both(records, work);
            }
            Err(verdict_of(Err(refusal), NO_CHUNK))
        }
    }
}

// After more chunks are judged: their counts are added, or the call ends, and marks are cleared. A call that has ended
// stays as it ended.
#[tactic(auto, unfolding(crate::specs::Stages::advanced, crate::specs::Stages::marks_then, crate::specs::Stages::Fits, crate::specs::Call::marks_on, answer::specs::Answer::numbered))]
pub fn advance(state: State, judgement: Result<Sums, Refused>, marks: &mut [u64]) -> State
    requires { Fits state judgement }
    ensures { Advances state judgement marks.old result marks.new }
{
    let counted = state?;
    match judgement {
        Ok(more) => Ok(Accepted {
            instructions: counted.instructions,
            reached: counted.reached + more.reached,
            taken: counted.taken + more.taken,
        }),
        Err(Refused { chunk, refusal }) => {
            marks::clear(marks);
            Err(verdict_of(Err(refusal), chunk))
        }
    }
}

// One chunk, given by its number and three more.
pub fn take_span(
    state: State,
    script: &Script<'_>,
    entry: u32,
    end: u32,
    declared: u16,
    number: usize,
    marks: &mut [u64],
    heights: &mut [u16],
    records: &mut [u32],
    work: &mut [u32],
) -> State
    requires { ReadyForChunk (script_of script.now) number state
        marks.old heights.old records.old work.old }
    ensures { Takes (script_of script.now) (length records.old) (length work.old)
        (record { entry = entry; end = end; declared = declared }) number state
        marks.old heights.old
        result marks.new heights.new records.new work.new }
{
    let checked = Checked { script, marks };
    let judgement = judging::verify_span(
        &checked,
        entry,
        end,
        declared,
        number as u32,
        heights,
        records,
        work,
    );
    advance(state, judgement, marks)
}

// The end: the verdict.
#[tactic(auto, unfolding(crate::specs::Stages::finished))]
pub fn finish(state: State) -> Verdict
    ensures { result ≡ finished state }
{
    match state {
        Ok(counted) => verdict_of(Ok(counted), NO_CHUNK),
        Err(verdict) => verdict,
    }
}
