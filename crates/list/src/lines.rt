// The line of what a reader reads at an offset.
ghost use Rattle.std.specs.Prelude.{◌≡◌, ◌+◌, ◌≤◌, length};
ghost use Rattle.code.specs.Layout.{layout};
ghost use Rattle.code.proofs.Layouts.{sizes};
ghost use Rattle.list.specs.Lines.{ending_line, item_line, Writes};

use crate::text::{self, Line};
use crate::{names, operands};
use listing::{Ending, Item};

// A line that was written, and the place after what was read.
#[derive(Clone, Copy)]
pub struct Written {
    pub line: Line,
    pub next: usize,
}

// The line of an instruction: its offset, its name, its width and its operands.
#[tactic(auto, unfolding(crate::specs::Lines::item_line))]
fn item_line(code: &[u8], item: Item) -> Line
    requires { item.at + 1 + sizes (layout item.tag) ≤ length code.now }
    ensures { result.bytes ≡ item_line code.now item }
{
    let mut line = Line::new();
    text::put_number(&mut line, item.at);
    line.push_str(" ");
    line.push_str(names::name_of(item.tag));
    text::put_field(&mut line, item.width);
    operands::put_operands(&mut line, code, item.at + 1, item.tag);
    line.push_str("\n");
    line
}

// A line of words and an offset.
#[tactic(auto, unfolding(crate::specs::Lines::ending_line))]
fn ending_line(words: &str, at: usize) -> Line
    requires { length words.now ≤ 64 }
    ensures { result.bytes ≡ ending_line words.now at }
{
    let mut line = Line::new();
    line.push_str(words);
    text::put_number(&mut line, at);
    line.push_str("\n");
    line
}

// The line of what stands at an offset, whatever the offset.
#[tactic(auto, using(crate::proofs::Lined::operands_there), unfolding(crate::specs::Lines::line_of, crate::specs::Text::letters))]
pub fn write_line(code: &[u8], at: usize) -> Written
    ensures { Writes code.now at result }
{
    let read = reader::read_next(code, at);
    let line = match read.item {
        Ok(item) => item_line(code, item),
        Err(Ending::End) => ending_line("end at ", code.len()),
        Err(Ending::NoWidth(place)) => ending_line("no width at ", place),
    };
    Written {
        line,
        next: read.next,
    }
}
