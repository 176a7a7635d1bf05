// The operands of an instruction, as numbers in byte order.
ghost use Rattle.std.specs.Prelude.{All, ◌≡◌, ◌++◌, ◌+◌, ◌≤◌, length, map};
ghost use Rattle.code.specs.Layout.{layout, little};
ghost use Rattle.code.specs.Sizes.{size as bytes_of};
ghost use Rattle.code.proofs.Layouts.{sizes};
ghost use Rattle.arrayvec.specs.ArrayString.{array_string_len};
ghost use Rattle.list.specs.Lines.{operands_from, fields};
ghost use Rattle.list.specs.Sizes.{IsSize};

use crate::text::{self, Line};
use code::{Number, tag};

// How many bytes each operand of a tag takes, in byte order.
#[tactic(auto, unfolding(code::specs::Layout::layout, code::specs::Tags::among))]
fn sizes_of(tag: u8) -> &'static [usize]
    ensures value { result.now ≡ map bytes_of (layout tag) }
    ensures len { length result.now ≤ 3 }
    ensures each { All IsSize result.now }
{
    match tag {
        tag::ROTATE
        | tag::CURRY
        | tag::CALL_FN_PTR
        | tag::CALL_FN_PTR_CAPTURE
        | tag::CALL_FN_PTR_METHOD
        | tag::CALL_FN_PTR_ON_THIS => &[1],
        tag::UNWIND_TO
        | tag::STATEMENT
        | tag::SHARE
        | tag::SHARE_NAMED
        | tag::LOAD_SHARED
        | tag::LOAD_SHARED_NAMED
        | tag::STORE_SHARED
        | tag::ASSIGN_THIS_OP
        | tag::MAKE_CLOSURE
        | tag::LOAD_CONST
        | tag::LOAD_LOCAL
        | tag::LOAD_NAMED
        | tag::STORE_LOCAL
        | tag::STORE_CONST
        | tag::DECLARE_LOCAL
        | tag::DECLARE_CONST
        | tag::DECLARE_GLOBAL_CONST
        | tag::CHAIN
        | tag::MAKE_ARRAY
        | tag::MAKE_MAP
        | tag::CHECK_ARRAY_SIZE
        | tag::CHECK_MAP_SIZE
        | tag::SWITCH
        | tag::CUSTOM_SYNTAX
        | tag::ASSIGN_NAMED
        | tag::IMPORT => &[2],
        tag::JUMP
        | tag::JUMP_IF_TRUE
        | tag::JUMP_IF_FALSE
        | tag::SKIP_IF_NOT_UNIT
        | tag::ITER_NEXT
        | tag::PUSH_HANDLER => &[4],
        tag::CALL_FN_PTR_ON_LOCAL | tag::CALL_FN_PTR_ON_NAMED => &[1, 2],
        tag::CALL | tag::CALL_THIS_REF => &[2, 1],
        tag::EXPORT_LOCAL | tag::EXPORT_NAMED | tag::ASSIGN_LOCAL | tag::ASSIGN_NAMED_OP => &[2, 2],
        tag::ITER_NEXT_INDEXED | tag::PUSH_HANDLER_VAR => &[4, 2],
        tag::CALL_OP | tag::CALL_LOCAL_REF | tag::CALL_NAMED_REF => &[2, 1, 2],
        tag::ASSIGN_LOCAL_OP => &[2, 2, 2],
        _ => &[],
    }
}

// The number of so many bytes.
#[tactic(auto, unfolding(code::specs::Layout::little))]
fn number_of(code: &[u8], from: usize, size: usize) -> u32
    requires size_value { IsSize size }
    requires size_in_bounds { from + size ≤ length code.now }
    ensures { result ≡ little size code.now from }
{
    match size {
        1 => code[from] as u32,
        2 => u16::read(code, from) as u32,
        _ => u32::read(code, from),
    }
}

// The operands of a tag, of which there are at most three, from an offset on, with a space before each.
pub fn put_operands(line: &mut Line, code: &[u8], from: usize, tag: u8)
    requires tag_in_bounds { from + sizes (layout tag) ≤ length code.now }
    requires in_bounds { array_string_len line.old + 63 ≤ 128 }
    ensures puts { line.new.bytes ≡ line.old.bytes ++ fields (operands_from (layout tag) code.now from) }
    ensures upper_bound { array_string_len line.new ≤ array_string_len line.old + 63 }
{
    let mut at = from;
    for &size in sizes_of(tag) {
        text::put_field(line, number_of(code, at, size) as usize);
        at += size;
    }
}
