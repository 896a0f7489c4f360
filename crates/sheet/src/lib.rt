// Document 01's sheet of examples, as one table under one theorem: specs/ has the table, and proofs/ the theorem.
#![tactic(auto)]
