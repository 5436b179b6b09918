// The numbers that the papers fix, and all promises in full; no code.

#![tactic(auto)]
