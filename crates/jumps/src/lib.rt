// The jump rules and both halves of demand 3. They are definitions and theorems: specs/ and proofs/ have them. The code that computes the
// jumps is in the crates `tables` and `questions`.
#![tactic(auto)]
