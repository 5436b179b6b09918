// The charging hall by prices: its limit, a better set by rounds, when they are refused and what they promise;
// no code.

#![tactic(auto)]

// What the rounds return: a refusal, 0 if none; then what the set is worth, the lowest limit seen and how many
// rounds were made, all 0 on a refusal.
#[repr(C)]
#[derive(Clone, Copy)]
pub struct ChargeRefineAnswer {
    pub refusal: u8,
    pub worth: u32,
    pub limit: u32,
    pub rounds: u32,
}
