// The answer in document 01's numbers, as it crosses to other languages.
ghost use Rattle.std.specs.Prelude.{◌≡◌};
ghost use Rattle.answer.specs.Answer.{refusal, refused, numbered};

use crate::{Answer, Refusal};

// Kind, chunk, at, p, q and three counts. The chunk is 4,294,967,295 before the chunks and on acceptance. C interface:
// an enum with values does not cross it, so the kind is a number.
#[repr(C)]
#[derive(Clone, Copy)]
pub struct Verdict {
    pub kind: u32,
    pub chunk: u32,
    pub at: u64,
    pub p: u64,
    pub q: u64,
    pub instructions: u64,
    pub reached: u64,
    pub taken: u64,
}

pub const NO_CHUNK: u32 = 4294967295;

// A refusal counts nothing.
fn refusal(kind: u32, chunk: u32, at: u64, p: u64, q: u64) -> Verdict
    ensures { result ≡ refusal kind chunk at p q }
{
    Verdict {
        kind,
        chunk,
        at,
        p,
        q,
        instructions: 0,
        reached: 0,
        taken: 0,
    }
}

// The numbers of a refusal, by its kind.
#[tactic(auto, unfolding(crate::specs::Answer::refused))]
fn refused(answer: Refusal, chunk: u32) -> Verdict
    ensures { result ≡ refused chunk answer }
{
    match answer {
        Refusal::TooLarge(limit) => refusal(1, chunk, 0, limit, 0),
        Refusal::BadTable { table, entry } => refusal(2, chunk, 0, table, entry),
        Refusal::NoRoom { needed, buffer } => refusal(3, chunk, 0, needed, buffer),
        Refusal::MissingCaps { at, missing } => refusal(4, chunk, at, missing as u64, 0),
        Refusal::Undecodable(at) => refusal(5, chunk, at, 0, 0),
        Refusal::BadIndex { at, index, pool } => refusal(6, chunk, at, index as u64, pool),
        Refusal::ChunkOutOfRange { entry, end } => refusal(7, chunk, 0, entry as u64, end as u64),
        Refusal::Misaligned(entry) => refusal(8, chunk, 0, entry as u64, 0),
        Refusal::JumpOutOfRange { at, target } => refusal(9, chunk, at, target as u64, 0),
        Refusal::JumpIntoAnInstruction { at, target } => refusal(10, chunk, at, target as u64, 0),
        Refusal::DepthConflict {
            at,
            expected,
            found,
        } => refusal(
            11,
            chunk,
            at,
            expected.operands as u64,
            found.operands as u64,
        ),
        Refusal::Underflow { at, need, have } => refusal(12, chunk, at, need as u64, have as u64),
        Refusal::FallsOffTheEnd => refusal(13, chunk, 0, 0, 0),
        Refusal::StackExceedsDeclared { needed, declared } => {
            refusal(14, chunk, 0, needed as u64, declared as u64)
        }
        Refusal::IteratorUnderflow(at) => refusal(15, chunk, at, 0, 0),
        Refusal::HandlerUnderflow(at) => refusal(16, chunk, at, 0, 0),
    }
}

// The numbers of an answer about a chunk.
#[tactic(auto, unfolding(crate::specs::Answer::numbered))]
pub fn verdict_of(answer: Answer, chunk: u32) -> Verdict
    ensures { result ≡ numbered chunk answer }
{
    match answer {
        Ok(accepted) => Verdict {
            kind: 0,
            chunk: NO_CHUNK,
            at: 0,
            p: 0,
            q: 0,
            instructions: accepted.instructions,
            reached: accepted.reached,
            taken: accepted.taken,
        },
        Err(refusal) => refused(refusal, chunk),
    }
}
