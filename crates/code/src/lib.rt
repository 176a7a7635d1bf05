// The bytes of the code: tags, how wide an instruction is, and the numbers among its operands.
// Every answer is fixed by the bytes and the offset, for every slice and every offset of a `usize`.
// What a tag does is left to `rules`; which offsets start an instruction, to `listing`.
#![tactic(auto)]

ghost use Rattle.std.specs.Prelude.{◌≡◌, ℕ, ◌+◌, ◌≤◌, length, get_or, option_map};
ghost use Rattle.code.specs.Answers.{number_at, found_at};
ghost use Rattle.code.specs.Layout.{little};
ghost use Rattle.code.specs.Rows.{width_rows};
ghost use Rattle.code.specs.Width.{width_of};

pub mod tag;

// The widths of sixteen tags, a hexadecimal digit each, the lowest tag in the lowest digit; 0 marks a byte that is no
// tag. The numbers stand in a `match`, since an array would be stored anew at every use.
fn width_row(row: u8) -> u64
    ensures { result ≡ get_or width_rows row 0 }
{
    match row {
        0 => 0x1111111111111110,
        1 => 0x3333322222211111,
        2 => 0x3333333333333333,
        3 => 0x5555555544443333,
        4 => 0x3000000077766655,
        _ => 0,
    }
}

// Why no instruction stands at an offset: the code has no byte there, the byte is no tag, or the code ends before the
// operands do.
#[derive(Clone, Copy, PartialEq, Eq)]
pub enum NoWidth {
    NoByte,
    UnknownTag,
    CutOff,
}

// The width of a tag, 0 for a byte that is none.
#[tactic(auto, using(crate::proofs::Entries::rule, crate::proofs::Entries::row_entry))]
pub fn width_of(tag: u8) -> usize
    ensures { result ≡ width_of tag }
{
    ((width_row(tag / 16) >> (tag % 16 * 4)) % 16) as usize
}

// The width of the instruction at an offset.
#[tactic(auto, unfolding(crate::specs::Answers::found_by))]
pub fn width_at(code: &[u8], at: usize) -> Result<usize, NoWidth>
    ensures { result ≡ found_at code.now at }
{
    if code.len() <= at {
        return Err(NoWidth::NoByte);
    }
    let size = width_of(code[at]);
    if size == 0 {
        return Err(NoWidth::UnknownTag);
    }
    if size <= code.len() - at {
        Ok(size)
    } else {
        Err(NoWidth::CutOff)
    }
}

// A number among the operands: so many bytes, the lowest first.
pub trait Number: Copy {
    const SIZE: usize;

    ghost SIZE: { ℕ };

    ghost value: { Self → ℕ };

    // The number at an offset, for a caller who knows that its bytes are there.
    fn read(code: &[u8], at: usize) -> Self
        requires { at + SIZE ≤ length code.now }
        ensures { value result ≡ little SIZE code.now at };

    // So the bytes fix the number.
    ghost same: { (a b : Self) → value a ≡ value b → a ≡ b };
}

impl Number for u16 {
    const SIZE: usize = 2;

    ghost SIZE = { 2 };

    ghost value = { λ n. n };

    ghost same = { λ a b e. e };

    #[tactic(auto, unfolding(crate::specs::Layout::little))]
    fn read(code: &[u8], at: usize) -> u16 {
        u16::from_le_bytes([code[at], code[at + 1]])
    }
}

impl Number for u32 {
    const SIZE: usize = 4;

    ghost SIZE = { 4 };

    ghost value = { λ n. n };

    ghost same = { λ a b e. e };

    #[tactic(auto, unfolding(crate::specs::Layout::little))]
    fn read(code: &[u8], at: usize) -> u32 {
        u32::from_le_bytes([code[at], code[at + 1], code[at + 2], code[at + 3]])
    }
}

// The number at any offset, where all its bytes are there.
#[tactic(auto, using(crate::proofs::Little::number_there, crate::proofs::Little::number_cut))]
pub fn number_at<N: Number>(code: &[u8], at: usize) -> Option<N>
    ensures { option_map N.value result ≡ number_at N.SIZE code.now at }
{
    let last = code.len().checked_sub(N::SIZE)?;
    if at <= last {
        Some(N::read(code, at))
    } else {
        None
    }
}
