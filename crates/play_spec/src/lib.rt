// What a groomer does in each minute of a shift where turns are late, and the counts that are kept of it; the entry's
// answer and causes to refuse; no code.

#![tactic(auto)]

// A turn as it is worked: from which minute on, and until which.
#[derive(Clone, Copy)]
pub struct Stint {
    pub turn: u16,
    pub begin: u16,
    pub end: u16,
}

// How many minutes a groomer has worked, driven over and stood so far, and the turn that it has in hand.
#[repr(C)]
#[derive(Clone, Copy)]
pub struct Standing {
    pub working: u16,
    pub driving: u16,
    pub standing: u16,
    pub turn: u16,
}

// What comes back: a refusal, 0 if none, and how many groomers the sheet has, 0 on a refusal.
#[repr(C)]
#[derive(Clone, Copy)]
pub struct PlayAnswer {
    pub refusal: u8,
    pub groomers: u16,
}
