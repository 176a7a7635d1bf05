// The indices among an instruction's own bytes. Where they stand and which pool each points into is one table.
ghost use Rattle.std.specs.Prelude.{◌≡◌, [], ◌∷◌, ◌+◌, ◌/◌, ◌%◌, ◌≤◌, ◌<◌, length, get_or};
ghost use Rattle.code.specs.Layout.{indices};
ghost use Rattle.code.specs.Width.{width_at};
ghost use Rattle.indices.specs.Fields.{index_digits, unpacked, index_rows};
ghost use Rattle.indices.specs.Indices.{first_bad_ref, in_code, ref_at, size_of};
ghost use Rattle.indices.specs.Checks.{checked_told, pool_number};

use super::{BadIndex, Pool, Sizes, bounded};
use code::Number;

// The indices of four tags, 16 bits each, the lowest tag lowest: four hexadecimal digits, offset and pool of the first
// index, then of the second. 0: none. The numbers stand in a `match`, since an array would be stored anew at every use.
fn field_row(row: u8) -> u64
    ensures { result ≡ get_or index_rows row 0 }
{
    match row {
        0 => 0x0000000000000000,
        1 => 0x0000000000000000,
        2 => 0x0000000000000000,
        3 => 0x0000000000000000,
        4 => 0x0000000000000000,
        5 => 0x0000000000000000,
        6 => 0x0000000000000000,
        7 => 0x0000120000000000,
        8 => 0x1200140000001200,
        9 => 0x0000120000001100,
        10 => 0x1200120012000000,
        11 => 0x0000000000001500,
        12 => 0x1200170016000000,
        13 => 0x2200000012001200,
        14 => 0x0000000000000000,
        15 => 0x1232320000000000,
        16 => 0x1200124312343200,
        17 => 0x3254000000001242,
        18 => 0x0000000000000000,
        19 => 0x1200000000000000,
        _ => 0,
    }
}

// The indices of a tag.
fn fields_of(tag: u8) -> u16
    ensures { unpacked result ≡ indices tag }
{
    ((field_row(tag / 4) >> (tag % 4 * 16)) % 0x10000) as u16
}

// The pool of a digit of the table.
#[tactic(auto, unfolding(crate::specs::Checks::pool_number))]
fn pool_of(digit: u16) -> Pool
    requires { (0 < digit) × (digit < 8) }
    ensures { pool_number result ≡ digit }
{
    match digit {
        1 => Pool::Constant,
        2 => Pool::Name,
        3 => Pool::Operator,
        4 => Pool::OpAssignment,
        5 => Pool::Chain,
        6 => Pool::Switch,
        _ => Pool::Site,
    }
}

// One index of the instruction at an offset: `field` is its offset from there and its pool, a digit each.
fn check_field(code: &[u8], at: usize, field: u16, sizes: Sizes) -> Result<(), BadIndex>
    requires within { at + field / 16 + 2 ≤ length code.now }
    requires pool { (0 < field % 16) × (field % 16 < 8) }
    ensures { checked_told result ≡ first_bad_ref (size_of sizes) (ref_at code.now at (index_digits field) ∷ []) }
{
    let offset = (field / 16) as usize;
    let pool = pool_of(field % 16);
    let index = u16::read(code, at + offset) as u32;
    bounded(index, pool, sizes.of(pool))
}

// All indices of the instruction at an offset, up to the first bad one.
pub fn check_fields(code: &[u8], at: usize, sizes: Sizes) -> Result<(), BadIndex>
    requires { 0 < width_at code.now at }
    ensures { checked_told result ≡ first_bad_ref (size_of sizes) (in_code code.now at) }
{
    let fields = fields_of(code[at]);
    if fields == 0 {
        return Ok(());
    }
    check_field(code, at, fields / 256, sizes)?;
    if fields % 256 == 0 {
        return Ok(());
    }
    check_field(code, at, fields % 256, sizes)
}
