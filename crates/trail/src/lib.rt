// A chain found back in a table of least sums, point by point (request #109), begun: specs/ has the table, and the way back is still to be written.
#![tactic(auto)]
