// What the check answers, which boards pass, and what that promises; no code.

#![tactic(auto)]

// What the check returns: a refusal, 0 if none, and the board's tally, worth and ceiling, 0 on a refusal.
#[repr(C)]
#[derive(Clone, Copy)]
pub struct CheckAnswer {
    pub refusal: u8,
    pub tally: u32,
    pub worth: u32,
    pub ceiling: u32,
}
