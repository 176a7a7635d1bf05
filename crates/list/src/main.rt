// Lists code, for people to read and for programs to parse: the bytes of a code come from standard input, and a line for
// each instruction goes to standard output, read through a reader. One last line says how the listing ended.
//
//     OFFSET NAME WIDTH OPERAND..    an instruction: where it starts, its tag, its bytes, its operands in byte order
//     end at OFFSET                  the last line, where the code ends: every byte belongs to an instruction
//     no width at OFFSET             the last line, where a byte starts no instruction: it is no tag, or operands are cut
//                                    off
//     more than 65536 bytes          the only line, where there is more than any code may have
//
// Numbers are decimal, and one space parts two words. Only the line of an instruction begins with a digit.
#![tactic(auto)]

ghost use Rattle.std.specs.Prelude.{◌≡◌, ◌≤◌, IfOk, length};
ghost use Rattle.code.specs.Width.{width_of};
ghost use Rattle.listing.specs.Listing.{listed_at, stop_by};
ghost use Rattle.reader.specs.Reading.{place_after};

use pools::limits::MAX_CODE;
use std::io::{self, Read};

mod lines;
mod names;
mod operands;
mod text;

// Prints the line of what stands at an offset, and answers the place after it: the same where the listing ended. The
// only error is that of a write that failed.
fn print_line(rt: &impl Print, code: &[u8], at: usize) -> io::Result<usize>
    ensures { IfOk result (λ next. next ≡ place_after (listed_at code.now at) at) }
{
    let written = lines::write_line(code, at);
    rt.write_all(written.line.as_bytes())?;
    Ok(written.next)
}

// Prints every line, and answers the offset at which the listing ended. The only error is that of a write that failed.
fn print_lines(rt: &impl Print, code: &[u8]) -> io::Result<usize>
    ensures { IfOk result (λ stop. stop ≡ stop_by width_of code.now 0) }
{
    let mut at = 0;
    // No range: the step is the width of what stands there.
    loop {
        let next = print_line(rt, code, at)?;
        if next == at {
            return Ok(at);
        }
        at = next;
    }
}

// Reads until the buffer is full or the input ends, and answers how many bytes were read. The only error is that of a
// read that failed. The library has no such call: `read_exact` loses the number where the input ends, and `read_to_end`
// wants a heap.
fn read_full(input: &mut impl Read, buffer: &mut [u8]) -> io::Result<usize>
    ensures { IfOk result (λ count. count ≤ length buffer.new) }
{
    let mut count = 0;
    while count < buffer.len() {
        let read = input.read(&mut buffer[count..])?;
        if read == 0 {
            break;
        }
        count += read;
    }
    Ok(count)
}

fn main(rt: HostRuntime) -> io::Result<()> {
    let mut input = rt.stdin();
    let mut code = [0u8; MAX_CODE];
    let count = read_full(&mut input, &mut code)?;
    let mut more = [0u8; 1];
    if 0 < read_full(&mut input, &mut more)? {
        return println!(rt; "more than {MAX_CODE} bytes");
    }
    print_lines(&rt, &code[..count])?;
    Ok(())
}
