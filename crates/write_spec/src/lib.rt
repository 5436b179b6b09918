// What a written sheet is: the order of its turns, its bytes, what may be wrong with a table; no code.

#![tactic(auto)]
