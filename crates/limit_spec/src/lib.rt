// What a limit by prices is, when it is refused, and what it promises; no code.

#![tactic(auto)]

// What the entry returns: a refusal, 0 if none, and the limit, 0 on a refusal.
#[repr(C)]
#[derive(Clone, Copy)]
pub struct LimitAnswer {
    pub refusal: u8,
    pub limit: u32,
}
