// The whole call over flat spans, behind the C calling convention: C interface, its flat parameters.
ghost use Rattle.std.specs.Prelude.{length};
ghost use Rattle.before.specs.Parameters.{input};
ghost use Rattle.verify.specs.Call.{Calls};
ghost use Rattle.judging.specs.Spans.{spans_of};

use answer::verdict::Verdict;

#[unsafe(no_mangle)]
pub extern "C" fn probe_verify(
    rights: u32,
    functions: u32,
    constants: &[u32],
    names: &[u8],
    tokens: usize,
    op_assignments: usize,
    chains: &[u32],
    steps: &[u32],
    switches: &[u32],
    cases: &[u32],
    ranges: &[u32],
    code: &[u8],
    entries: &[u32],
    ends: &[u32],
    declared: &[u16],
    marks: &mut [u64],
    heights: &mut [u16],
    records: &mut [u32],
    work: &mut [u32],
) -> Verdict
    ensures { Calls
        (input rights functions constants names tokens op_assignments chains steps switches cases ranges code
        (length (spans_of entries.now ends.now declared.now)))
        (spans_of entries.now ends.now declared.now)
        (record {
          marks = marks.old;
          heights = heights.old;
          records = records.old;
          work = work.old;
        })
        result
        (record {
          marks = marks.new;
          heights = heights.new;
          records = records.new;
          work = work.new;
        }) }
{
    verify::verify(
        rights,
        functions,
        constants,
        names,
        tokens,
        op_assignments,
        chains,
        steps,
        switches,
        cases,
        ranges,
        code,
        entries,
        ends,
        declared,
        marks,
        heights,
        records,
        work,
    )
}
