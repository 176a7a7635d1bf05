// The C boundary: the one function that is offered to other languages, over a lent list of chunk records.
// Any input gets an answer: its verdict, and every word of the four lent buffers, are those of the whole call.
// Left to the caller's word: a pointer has as many elements as its length says, is aligned, and is null only where that
// length is 0; no buffer overlaps another or anything that is read; and nobody else writes what is lent or read while
// the call runs.
#![tactic(auto)]

ghost use Rattle.std.specs.Prelude.{◌≡◌, length};
ghost use Rattle.before.specs.Parameters.{input_of};
ghost use Rattle.before.specs.Parameters.{input};
ghost use Rattle.verify.specs.Call.{Calls};
ghost use Rattle.verify.specs.Stages.{finished};
ghost use Rattle.grain.specs.Chunks.{spans_from};

pub mod item;

use answer::verdict::Verdict;
use before::Input;
use pools::Pools;
use rules::Script;
use verify::stages;
use verify::stages::State;

// A chunk's span in the code, and the height that it declares.
#[repr(C)]
#[derive(Clone, Copy)]
pub struct Chunk {
    pub entry: u32,
    pub end: u32,
    pub max_stack: u16,
}

// All stages but the last, of an input with as many chunks as there are records.
fn judged(
    input: &Input<'_>,
    chunks: &[Chunk],
    marks: &mut [u64],
    heights: &mut [u16],
    records: &mut [u32],
    work: &mut [u32],
) -> State
    requires { input.now.chunks ≡ length (spans_from chunks.now) }
    ensures { Calls
        (input_of input.now)
        (spans_from chunks.now)
        (record {
          marks = marks.old;
          heights = heights.old;
          records = records.old;
          work = work.old;
        })
        (finished result)
        (record {
          marks = marks.new;
          heights = heights.new;
          records = records.new;
          work = work.new;
        }) }
{
    let mut counted = stages::begin(input, heights.len(), marks, records, work)?;
    for (number, chunk) in chunks.iter().enumerate() {
        counted = stages::take_span(
            Ok(counted),
            &input.script,
            chunk.entry,
            chunk.end,
            chunk.max_stack,
            number,
            marks,
            heights,
            records,
            work,
        )?;
    }
    Ok(counted)
}

// The whole call. C interface: its flat parameters, in this order.
#[unsafe(no_mangle)]
pub extern "C" fn grain_verify(
    rights: u32,
    functions: u32,
    constants: &[u32],
    names: &[u8],
    tokens: usize,
    op_assignments: usize,
    chains: &[u32],
    steps: &[u32],
    switches: &[u32],
    cases: &[u32],
    ranges: &[u32],
    code: &[u8],
    chunks: &[Chunk],
    marks: &mut [u64],
    heights: &mut [u16],
    records: &mut [u32],
    work: &mut [u32],
) -> Verdict
    ensures { Calls
        (input rights functions constants names tokens op_assignments chains steps switches cases ranges code
        (length (spans_from chunks.now)))
        (spans_from chunks.now)
        (record {
          marks = marks.old;
          heights = heights.old;
          records = records.old;
          work = work.old;
        })
        result
        (record {
          marks = marks.new;
          heights = heights.new;
          records = records.new;
          work = work.new;
        }) }
{
    let pools = Pools {
        constants,
        names,
        tokens,
        op_assignments,
        chains,
        steps,
        switches,
        cases,
        ranges,
    };
    let script = Script {
        code,
        pools,
        rights,
    };
    let input = Input {
        script,
        functions,
        chunks: chunks.len(),
    };
    stages::finish(judged(&input, chunks, marks, heights, records, work))
}
