// What a better board by rounds is, when it is refused, and what it promises; no code.

#![tactic(auto)]

// What the entry returns: a refusal, 0 if none; then how many bytes the board has, what it is worth, the lowest
// limit seen and how many rounds were made, all 0 on a refusal.
#[repr(C)]
#[derive(Clone, Copy)]
pub struct RefineAnswer {
    pub refusal: u8,
    pub bytes: u32,
    pub worth: u32,
    pub limit: u32,
    pub rounds: u32,
}
