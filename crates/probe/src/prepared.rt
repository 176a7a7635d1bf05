// Everything before the chunks, as its verdict in numbers. An input that passes is told as kind 0 with nothing counted.
// C interface: its flat parameters.
ghost use Rattle.before.specs.Parameters.{input};
ghost use Rattle.probe.specs.Before.{SameBefore};

use answer::Accepted;
use answer::verdict::{NO_CHUNK, Verdict, verdict_of};
use before::Input;
use pools::Pools;
use rules::Script;

#[tactic(auto, unfolding(answer::specs::Answer::told, answer::specs::Answer::numbered, before::specs::Calls::verdict_of))]
#[unsafe(no_mangle)]
pub extern "C" fn probe_before(
    rights: u32,
    functions: u32,
    constants: &[u32],
    names: &[u8],
    tokens: usize,
    op_assignments: usize,
    chains: &[u32],
    steps: &[u32],
    switches: &[u32],
    cases: &[u32],
    ranges: &[u32],
    code: &[u8],
    chunks: usize,
    marks: &mut [u64],
    heights: usize,
) -> Verdict
    ensures { SameBefore
        (input rights functions constants names tokens op_assignments chains steps switches cases ranges code chunks)
        heights marks.old result marks.new }
{
    let pools = Pools {
        constants,
        names,
        tokens,
        op_assignments,
        chains,
        steps,
        switches,
        cases,
        ranges,
    };
    let script = Script {
        code,
        pools,
        rights,
    };
    let input = Input {
        script,
        functions,
        chunks,
    };
    let nothing = Accepted {
        instructions: 0,
        reached: 0,
        taken: 0,
    };
    let answer = before::before_chunks(&input, marks, heights).map(|()| nothing);
    verdict_of(answer, NO_CHUNK)
}
