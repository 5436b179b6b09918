// The best worth of turns without drivers and without a second turn on a slope, by a table; the entry's answer, its causes
// to refuse and its promises; no code.

#![tactic(auto)]

// What the entry returns: a refusal, 0 if none, and the best worth, 0 on a refusal.
#[repr(C)]
#[derive(Clone, Copy)]
pub struct BestAnswer {
    pub refusal: u8,
    pub worth: u32,
}
