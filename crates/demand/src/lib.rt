// One chunk: its paths, the writing of depths that the customer's third demand asks for, its rule and its walk.
// There is no code here. specs/ says what is demanded and how a chunk is judged; proofs/Demand.antt, that these agree.
// The code that judges a chunk is left to the crates above.
#![tactic(auto)]
