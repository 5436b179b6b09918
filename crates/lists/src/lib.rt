// Words on lists, tests, sums and orders that the other crates' definitions use, and their laws; no code.

#![tactic(auto)]
