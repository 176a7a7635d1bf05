// Records and work as lent words: items that wait, four words each, and depths that were seen, three words each.
// Each answer, and every word on return, is fixed by what is passed in.
// Left to the caller: where in the words an item or the depths of a place stand, and room for them.
#![tactic(auto)]

pub mod seen;
pub mod stack;
