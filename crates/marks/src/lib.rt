// Marks: a bit for each place of the code, 64 to a word, the lowest first. The bit of an instruction's start is set.
// Each answer, and all that the marks hold on return, is fixed by what is passed in.
// Left to the caller: which places are starts, and words enough for them.
#![tactic(auto)]

ghost use Rattle.std.specs.Prelude.{◌≡◌, ◌/◌, ◌^◌, ◌<◌, length, replicate};
ghost use Rattle.marks.specs.Marks.{marked, total};
ghost use Rattle.marks.specs.Places.{bit_at, is_one};

// Clears every place.
pub fn clear(marks: &mut [u64])
    ensures { marks.new ≡ replicate (length marks.old) 0 }
{
    marks.fill(0);
}

// Sets the bit of a place, which has to lie within the words. Every other bit stays.
pub fn set_start(marks: &mut [u64], at: usize)
    requires { at / 64 < length marks.old }
    ensures { marks.new ≡ marked marks.old at }
{
    marks[at / 64] |= 1u64 << (at % 64);
}

// Is the bit of a place set? Of a place past the words it is not.
pub fn starts_at(marks: &[u64], at: usize) -> bool
    ensures { result ≡ is_one (bit_at marks.now at) }
{
    marks
        .get(at / 64)
        .is_some_and(|word| (word >> (at % 64)) & 1 == 1)
}

// How many bits are set, in marks where that number fits a `u64`.
pub fn count(marks: &[u64]) -> u64
    requires { total marks.now < 2 ^ 64 }
    ensures { result ≡ total marks.now }
{
    marks.iter().map(|word| u64::from(word.count_ones())).sum()
}
