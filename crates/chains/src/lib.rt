// Chains of recording positions, one for each point, for recordings that lost courses (document 02, #109). They are definitions and theorems: specs/ and
// proofs/ have them. The code that finds chains is in the crates `columns`, `trail` and `gap`.
#![tactic(auto)]
