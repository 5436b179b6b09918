// The search with a limit on its visits; the answer, the causes to refuse and the promises of the entry that improves a
// planned set; no code.

#![tactic(auto)]

// What the entry returns: a refusal, 0 if none, and else whether the search ran whole, the worth of the best
// set found, what the ceiling of the planned steps exceeds it by, and the visits.
#[repr(C)]
#[derive(Clone, Copy)]
pub struct ImproveAnswer {
    pub refusal: u8,
    pub whole: bool,
    pub worth: u32,
    pub above: u32,
    pub visits: u64,
}
