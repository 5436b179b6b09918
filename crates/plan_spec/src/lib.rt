// What the planned board of a sheet is, when planning is refused, and that the board reads back; no code.

#![tactic(auto)]
