// A line of text, and the numbers that are put behind it.
ghost use Rattle.std.specs.Prelude.{◌≡◌, ◌∷◌, ◌++◌, ◌+◌, ◌≤◌};
ghost use Rattle.arrayvec.specs.ArrayString.{array_string_len};
ghost use Rattle.list.specs.Text.{decimal, space};

use arrayvec::ArrayString;
use itoa::Buffer;

// A line, with room for any: an offset, a name, a width and three operands of at most 20 bytes each, the spaces and the
// line end.
pub type Line = ArrayString<128>;

// A number has at most 20 digits.
#[tactic(auto, using(crate::proofs::Decimals::decimal_written))]
pub fn put_number(line: &mut Line, number: usize)
    requires { array_string_len line.old + 20 ≤ 128 }
    ensures puts { line.new.bytes ≡ line.old.bytes ++ decimal number }
    ensures upper_bound { array_string_len line.new ≤ array_string_len line.old + 20 }
{
    line.push_str(Buffer::new().format(number));
}

// A number with a space before it.
pub fn put_field(line: &mut Line, number: usize)
    requires { array_string_len line.old + 21 ≤ 128 }
    ensures puts { line.new.bytes ≡ line.old.bytes ++ space ∷ decimal number }
    ensures upper_bound { array_string_len line.new ≤ array_string_len line.old + 21 }
{
    line.push_str(" ");
    put_number(line, number);
}
