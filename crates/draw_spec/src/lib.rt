// Drawn sheets: the generator, the drawn turns, their sheet; no code.

#![tactic(auto)]
