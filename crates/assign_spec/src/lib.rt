// Numbers for all turns, where any groomer can do any: what they are, and that no fewer will do; the entry's answer and
// causes to refuse; no code.

#![tactic(auto)]

// What comes back: a refusal, 0 if none, and how many groomers are used, 0 on a refusal.
#[repr(C)]
#[derive(Clone, Copy)]
pub struct AssignAnswer {
    pub refusal: u8,
    pub groomers: u16,
}
