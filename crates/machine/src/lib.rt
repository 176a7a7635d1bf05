// The abstract walk: a chunk freed of bytes and tags, the order of its items, and what is true of every walk.
// There is no code here. specs/ defines the walk over a machine and a store; proofs/ has what holds of every such walk.
// What an instruction does is left to `rules`, and which machine a chunk is to `demand`.
#![tactic(auto)]
