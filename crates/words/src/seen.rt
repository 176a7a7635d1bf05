// Records: the depths with which a named place was seen, three words each. The operands are kept as one more, so that 0
// says: not seen.
ghost use Rattle.std.specs.Prelude.{◌≡◌, ◌+◌, ◌^◌, ◌≤◌, ◌<◌, length};
ghost use Rattle.words.specs.Seen.{seen_told, seen_at, note_at};

use answer::Depths;

// What the three words from an index on say.
#[tactic(auto, unfolding(crate::specs::Seen::seen_told, crate::specs::Seen::seen_at))]
pub fn recall(records: &[u32], at: usize) -> Option<Depths>
    requires { at + 3 ≤ length records.now }
    ensures { seen_told result ≡ seen_at records.now at }
{
    let kept = records[at];
    if kept == 0 {
        return None;
    }
    Some(Depths {
        operands: kept - 1,
        iterators: records[at + 1],
        handlers: records[at + 2],
    })
}

// Keeps depths in the three words from an index on.
pub fn note(records: &mut [u32], at: usize, d: Depths)
    requires at_in_bounds { at + 3 ≤ length records.old }
    requires operands_bound { d.operands + 1 < 2 ^ 32 }
    ensures { records.new ≡ note_at records.old at d }
{
    records[at] = d.operands + 1;
    records[at + 1] = d.iterators;
    records[at + 2] = d.handlers;
}
