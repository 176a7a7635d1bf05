// One word for each tag, so that a walk looks a tag up once where it would match on it several times.
// In digits of base 16, the lowest first: what the instruction needs and what it pops, each so many and 4 more for each
// of its count n; what it pushes; its width; where n stands, as its offset from the tag and 8 more where it has two
// bytes, 0 where there is none; its flow, below; and in the four highest the rights that it asks for (caps). A CHAIN's
// operands k stand in its own table, and not here.
ghost use Rattle.std.specs.Prelude.{◌≡◌, ℕ};
ghost use Rattle.code.specs.Layout.{tag_at};
ghost use Rattle.code.specs.Width.{width_of, width_at};
ghost use Rattle.rules.specs.Asks.{Asks};
ghost use Rattle.rules.specs.Shapes.{simple, Shape, Flow, Flows};

use crate::Instruction;
use code::tag;

// How control goes on, and what becomes of iterators and handlers. Each has its digit in a tag's word.
#[derive(Clone, Copy, PartialEq, Eq)]
pub enum Flow {
    // To the next instruction, with the iterators and handlers as they were.
    Next = 0,
    IterInit = 1,
    PopHandler = 2,
    IterDrop = 3,
    IterNext = 4,
    PushHandler = 5,
    Branch = 6,
    Jump = 7,
    Switch = 8,
    // RETURN and THROW.
    Leave = 9,
}

// The flow of a digit. Any number has one: what is no flow's digit is no tag's either.
impl From<u32> for Flow {
    ghost from_gives = { λ number flow. (tag : ℕ) → Flow tag number → Flows tag flow };

    fn from(number: u32) -> Flow {
        match number {
            0 => Flow::Next,
            1 => Flow::IterInit,
            2 => Flow::PopHandler,
            3 => Flow::IterDrop,
            4 => Flow::IterNext,
            5 => Flow::PushHandler,
            6 => Flow::Branch,
            7 => Flow::Jump,
            8 => Flow::Switch,
            _ => Flow::Leave,
        }
    }
}

impl Flow {
    // The flow in a tag's word.
    pub fn of(word: u64) -> Flow
        ensures { (tag : ℕ) → Shape tag word → Flows tag result }
    {
        Flow::from((word / 0x10_0000 % 16) as u32)
    }
}

// A tag's word, a line for each: rights, flow, place of n, width; pushes, pops, needs. The numbers stand in a `match`,
// since an array would be stored anew at every look. They stay out of who looks, so that they stand once.
#[inline(never)]
pub fn shape_of(tag: u8) -> u64
    ensures { Shape tag result }
{
    match tag {
        tag::UNIT => 0x0000_0_0_1_100,
        tag::FALSE => 0x0000_0_0_1_100,
        tag::TRUE => 0x0000_0_0_1_100,
        tag::POP => 0x0000_0_0_1_011,
        tag::TICK => 0x0000_0_0_1_000,
        tag::CHECKPOINT => 0x0000_0_0_1_000,
        tag::RETURN => 0x0000_9_0_1_011,
        tag::THROW => 0x0000_9_0_1_011,
        tag::ITER_INIT => 0x0000_1_0_1_011,
        tag::ITER_DROP => 0x0000_3_0_1_000,
        tag::INTERPOLATE_START => 0x0000_0_0_1_100,
        tag::INTERPOLATE_APPEND => 0x0000_0_0_1_012,
        tag::INTERPOLATE_END => 0x0000_0_0_1_111,
        tag::POP_HANDLER => 0x0000_2_0_1_000,
        tag::IS_SHARED => 0x0080_0_0_1_111,
        tag::MAKE_FN_PTR => 0x0020_0_0_1_111,
        tag::LOAD_THIS => 0x0002_0_0_1_100,
        tag::LOAD_THIS_SHARED => 0x0002_0_0_1_100,
        tag::REQUIRE_THIS => 0x0002_0_0_1_000,
        tag::ASSIGN_THIS => 0x0002_0_0_1_011,
        tag::ROTATE => 0x0000_0_1_2_004,
        tag::CURRY => 0x0060_0_1_2_155,
        tag::CALL_FN_PTR => 0x0020_0_1_2_155,
        tag::CALL_FN_PTR_CAPTURE => 0x0020_0_1_2_155,
        tag::CALL_FN_PTR_METHOD => 0x0020_0_1_2_155,
        tag::CALL_FN_PTR_ON_THIS => 0x0020_0_1_2_155,
        tag::UNWIND_TO => 0x0000_0_0_3_000,
        tag::STATEMENT => 0x0000_0_0_3_000,
        tag::SHARE => 0x0080_0_0_3_000,
        tag::SHARE_NAMED => 0x0080_0_0_3_000,
        tag::LOAD_SHARED => 0x0000_0_0_3_100,
        tag::LOAD_SHARED_NAMED => 0x0000_0_0_3_100,
        tag::STORE_SHARED => 0x0000_0_0_3_011,
        tag::ASSIGN_THIS_OP => 0x0002_0_0_3_011,
        tag::MAKE_CLOSURE => 0x0020_0_0_3_100,
        tag::LOAD_CONST => 0x0000_0_0_3_100,
        tag::LOAD_LOCAL => 0x0000_0_0_3_100,
        tag::LOAD_NAMED => 0x4000_0_0_3_100,
        tag::STORE_LOCAL => 0x0000_0_0_3_011,
        tag::STORE_CONST => 0x0000_0_0_3_011,
        tag::DECLARE_LOCAL => 0x0000_0_0_3_011,
        tag::DECLARE_CONST => 0x0000_0_0_3_011,
        tag::DECLARE_GLOBAL_CONST => 0x0000_0_0_3_011,
        tag::CHAIN => 0x8000_0_0_3_100,
        tag::MAKE_ARRAY => 0x0100_0_9_3_144,
        tag::MAKE_MAP => 0x0200_0_9_3_188,
        tag::CHECK_ARRAY_SIZE => 0x0000_0_0_3_001,
        tag::CHECK_MAP_SIZE => 0x0000_0_0_3_001,
        tag::SWITCH => 0x0000_8_0_3_011,
        tag::CUSTOM_SYNTAX => 0x0400_0_0_3_000,
        tag::ASSIGN_NAMED => 0x0000_0_0_3_011,
        tag::CALL => 0x4000_0_3_4_144,
        tag::CALL_THIS_REF => 0x4002_0_3_4_144,
        tag::CALL_FN_PTR_ON_LOCAL => 0x0020_0_1_4_155,
        tag::CALL_FN_PTR_ON_NAMED => 0x0020_0_1_4_155,
        tag::JUMP => 0x0000_7_0_5_000,
        tag::JUMP_IF_TRUE => 0x0000_6_0_5_011,
        tag::JUMP_IF_FALSE => 0x0000_6_0_5_011,
        tag::SKIP_IF_NOT_UNIT => 0x0000_6_0_5_001,
        tag::ITER_NEXT => 0x0000_4_0_5_100,
        tag::PUSH_HANDLER => 0x0000_5_0_5_000,
        tag::EXPORT_LOCAL => 0x0800_0_0_5_000,
        tag::EXPORT_NAMED => 0x0800_0_0_5_000,
        tag::ASSIGN_LOCAL => 0x0000_0_0_5_011,
        tag::ASSIGN_NAMED_OP => 0x0000_0_0_5_011,
        tag::CALL_OP => 0x4000_0_3_6_144,
        tag::CALL_LOCAL_REF => 0x4000_0_3_6_144,
        tag::CALL_NAMED_REF => 0x4000_0_3_6_144,
        tag::ITER_NEXT_INDEXED => 0x0000_4_0_7_100,
        tag::PUSH_HANDLER_VAR => 0x0000_5_0_7_000,
        tag::ASSIGN_LOCAL_OP => 0x0000_0_0_7_011,
        tag::IMPORT => 0x1000_0_0_3_011,
        _ => 0,
    }
}

// Is there nothing in a word but what the instruction needs, pops and pushes, and its width? It has no count then and
// asks for no rights, and control goes on to the next instruction with the iterators and handlers as they were.
#[tactic(auto, unfolding(crate::specs::Shapes::simple))]
pub fn is_simple(word: u64) -> bool
    ensures { result ≡ simple word }
{
    word < 0x1_0000
}

// The width in a tag's word.
pub fn width_in(word: u64) -> usize
    ensures { (tag : ℕ) → Shape tag word → result ≡ width_of tag }
{
    (word / 0x1000 % 16) as usize
}

// The rights in a tag's word, and what else decides about them.
pub fn asks_of(word: u64) -> u32
    ensures { (tag : ℕ) → Shape tag word → Asks tag result }
{
    (word / 0x100_0000 % 0x1_0000) as u32
}

impl<'a> Instruction<'a> {
    pub fn width(&self) -> usize
        ensures { result ≡ width_at self.now.script.now.code.now self.now.at }
    {
        width_in(self.word)
    }

    pub fn flow(&self) -> Flow
        ensures { Flows (tag_at self.now.script.now.code.now self.now.at) result }
    {
        Flow::of(self.word)
    }
}
