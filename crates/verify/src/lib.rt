// The whole call, in stages and at once: the order of all tests, and what the lent memory holds at its end.
// Each answer and every word on return is fixed by what is passed in; `verify` takes any input.
// Left to the caller: what a host does with a script that passes.
#![tactic(auto)]

ghost use Rattle.std.specs.Prelude.{◌≡◌, length};
ghost use Rattle.before.specs.Parameters.{input_of};
ghost use Rattle.before.specs.Parameters.{input};
ghost use Rattle.verify.specs.Call.{Calls};
ghost use Rattle.verify.specs.Stages.{finished};
ghost use Rattle.judging.specs.Spans.{spans_of};

pub mod stages;

use answer::verdict::Verdict;
use before::Input;
use opening::Checked;
use pools::Pools;
use rules::Script;
use stages::State;

// All stages but the last, of an input with as many chunks as there are spans. The three lists are those of `verify`,
// and the four buffers stay four: each stage is lent two or three of them.
fn judged(
    input: &Input<'_>,
    entries: &[u32],
    ends: &[u32],
    declared: &[u16],
    marks: &mut [u64],
    heights: &mut [u16],
    records: &mut [u32],
    work: &mut [u32],
) -> State
    requires { input.now.chunks ≡ length (spans_of entries.now ends.now declared.now) }
    ensures { Calls
        (input_of input.now)
        (spans_of entries.now ends.now declared.now)
        (record {
          marks = marks.old;
          heights = heights.old;
          records = records.old;
          work = work.old;
        })
        (finished result)
        (record {
          marks = marks.new;
          heights = heights.new;
          records = records.new;
          work = work.new;
        }) }
{
    let counted = stages::begin(input, heights.len(), marks, records, work)?;
    let checked = Checked {
        script: &input.script,
        marks,
    };
    let judgement = judging::judge_spans(
        &checked, entries, ends, declared, 0, heights, records, work,
    );
    stages::advance(Ok(counted), judgement, marks)
}

// The whole call over flat spans, of any input. There are as many chunks as the shortest of the three lists has spans.
// Its parameters are the flat ones that README offers: none of them asks anything of a caller.
pub fn verify(
    rights: u32,
    functions: u32,
    constants: &[u32],
    names: &[u8],
    tokens: usize,
    op_assignments: usize,
    chains: &[u32],
    steps: &[u32],
    switches: &[u32],
    cases: &[u32],
    ranges: &[u32],
    code: &[u8],
    entries: &[u32],
    ends: &[u32],
    declared: &[u16],
    marks: &mut [u64],
    heights: &mut [u16],
    records: &mut [u32],
    work: &mut [u32],
) -> Verdict
    ensures { Calls
        (input rights functions constants names tokens op_assignments chains steps switches cases ranges code
        (length (spans_of entries.now ends.now declared.now)))
        (spans_of entries.now ends.now declared.now)
        (record {
          marks = marks.old;
          heights = heights.old;
          records = records.old;
          work = work.old;
        })
        result
        (record {
          marks = marks.new;
          heights = heights.new;
          records = records.new;
          work = work.new;
        }) }
{
    let pools = Pools {
        constants,
        names,
        tokens,
        op_assignments,
        chains,
        steps,
        switches,
        cases,
        ranges,
    };
    let script = Script {
        code,
        pools,
        rights,
    };
    let chunks = judging::least(entries.len(), ends.len(), declared.len());
    let input = Input {
        script,
        functions,
        chunks,
    };
    stages::finish(judged(
        &input, entries, ends, declared, marks, heights, records, work,
    ))
}
