// The problem that a sheet poses: its turns as the model speaks of them, and their order by start; no code.

#![tactic(auto)]
