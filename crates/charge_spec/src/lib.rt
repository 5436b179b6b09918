// The charging hall: allowed sets, the two plans, their promise; the entry's answer and causes to refuse; no code.

#![tactic(auto)]

// What the entry returns: a refusal, 0 if none, and the worth of the plan, 0 on a refusal.
#[repr(C)]
#[derive(Clone, Copy)]
pub struct ChargeAnswer {
    pub refusal: u8,
    pub worth: u32,
}
