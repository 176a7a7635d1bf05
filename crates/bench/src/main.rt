// Document 01's bench cases, and the three on which frauds show, asked of the verifier in the order of the table in
// specs/Bench. One line for each: kind, chunk, at, p, q, instructions, reached, taken. `ask` answers what the
// definition of the whole call says, and the table's rows are proved of that definition.
#![tactic(auto)]

ghost use Rattle.std.specs.Prelude.{◌≡◌};
ghost use Rattle.bench.specs.Bench.{asked, lent};
ghost use Rattle.verify.specs.Call as call;
ghost use Rattle.judging.specs.Spans.{spans_of};

use answer::verdict::Verdict;
use std::io;

// Asks about a script of constants and code alone, with the table's memory lent.
fn ask(
    rights: u32,
    constants: &[u32],
    code: &[u8],
    entries: &[u32],
    ends: &[u32],
    declared: &[u16],
) -> Verdict
    ensures { result ≡ (call.result
        (asked rights constants.now code.now
        (spans_of entries.now ends.now declared.now))
        (spans_of entries.now ends.now declared.now) lent).verdict }
{
    let mut marks = [5u64; 2];
    let mut heights = [77u16; 2];
    let mut records = [6u32; 16];
    let mut work = [7u32; 40];
    verify::verify(
        rights,
        0,
        constants,
        &[],
        0,
        0,
        &[],
        &[],
        &[],
        &[],
        &[],
        code,
        entries,
        ends,
        declared,
        &mut marks,
        &mut heights,
        &mut records,
        &mut work,
    )
}

// No rights, no constants, and one chunk.
fn ask_part(code: &[u8], entry: u32, end: u32, declared: u16) -> Verdict {
    ask(0, &[], code, &[entry], &[end], &[declared])
}

// P11: its entry lies inside an instruction.
fn ask_misaligned() -> Verdict {
    let constants = [0u32; 1794];
    ask(0, &constants, b"\x24\x01\x07", &[1], &[3], &[9])
}

// P12: an instruction's rights, and a constant's.
fn ask_instruction() -> Verdict {
    ask(32, &[], b"\x01\x16\x00\x07", &[0], &[4], &[9])
}

fn ask_constant() -> Verdict {
    ask(256, &[768], b"\x01\x07", &[0], &[2], &[9])
}

// Two chunks of one code.
fn ask_two(entry: u32, end: u32) -> Verdict {
    ask(
        0,
        &[],
        b"\x01\x07\x01\x01\x04\x07",
        &[0, entry],
        &[2, end],
        &[9, 9],
    )
}

// Here and below the only error is that of a write that failed.
fn tell(rt: &impl Print, verdict: Verdict) -> io::Result<()> {
    let Verdict {
        kind,
        chunk,
        at,
        p,
        q,
        instructions,
        reached,
        taken,
    } = verdict;
    println!(rt; "{kind} {chunk} {at} {p} {q} {instructions} {reached} {taken}")
}

fn tell_part(rt: &impl Print, code: &[u8], entry: u32, end: u32, declared: u16) -> io::Result<()> {
    tell(rt, ask_part(code, entry, end, declared))
}

// P1 to P7.
fn tell_first(rt: &impl Print) -> io::Result<()> {
    tell_part(rt, b"\x01\x07", 0, 2, 9)?;
    tell_part(rt, b"\x01\x07", 0, 2, 0)?;
    tell_part(rt, b"\x07", 0, 1, 9)?;
    tell_part(rt, b"\x01", 0, 1, 9)?;
    tell_part(rt, b"", 0, 0, 9)?;
    tell_part(rt, b"\x38\x00\x00\x00\x00", 0, 5, 9)?;
    tell_part(rt, b"\x38\x01\x00\x00\x00", 0, 5, 9)?;
    tell_part(rt, b"\x38\x05\x00\x00\x00", 0, 5, 9)?;
    tell_part(rt, b"\x3c\xff\xff\xff\xff", 0, 5, 9)
}

// P8 to P12.
fn tell_second(rt: &impl Print) -> io::Result<()> {
    tell_part(
        rt,
        b"\x01\x09\x3c\x0d\x00\x00\x00\x04\x38\x02\x00\x00\x00\x01\x07",
        0,
        15,
        9,
    )?;
    tell_part(rt, b"\x3d\x06\x00\x00\x00\x0e\x01\x07", 0, 8, 9)?;
    tell_part(rt, b"\x3d\x05\x00\x00\x00\x0e\x01\x07", 0, 8, 9)?;
    tell(rt, ask_misaligned())?;
    tell(rt, ask_instruction())?;
    tell(rt, ask_constant())
}

// The other cases of the document.
fn tell_third(rt: &impl Print) -> io::Result<()> {
    tell_part(rt, b"\x00", 0, 1, 9)?;
    tell_part(rt, b"\x24\x00", 0, 2, 9)?;
    tell_part(rt, b"\x01\x07\x24\x00\x00", 0, 2, 9)?;
    tell_part(rt, b"\x01\x07\x0f", 0, 3, 9)?;
    tell_part(rt, b"\x38\x00\x00\x00\x00", 0, 3, 9)?;
    tell_part(rt, b"\x01\x0d\x07", 0, 3, 9)
}

// Those on which frauds show.
fn tell_tried(rt: &impl Print) -> io::Result<()> {
    tell(rt, ask_two(2, 6))?;
    tell(rt, ask_two(1, 2))?;
    tell_part(
        rt,
        b"\x01\x09\x3c\x0d\x00\x00\x00\x04\x38\x02\x00\x00\x00\x01\x07\x0f\x0f",
        0,
        17,
        9,
    )
}

fn main(rt: HostRuntime) -> io::Result<()> {
    tell_first(&rt)?;
    tell_second(&rt)?;
    tell_third(&rt)?;
    tell_tried(&rt)
}
