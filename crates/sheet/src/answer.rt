// What reading a whole sheet returns.

// What the reader returns: a refusal, 0 if none, and the header's counts, all 0 on a refusal. The refusal is
// a number, and no Result or Refusal, for the C interface.
#[repr(C)]
#[derive(Clone, Copy)]
pub struct ReadAnswer {
    pub refusal: u8,
    pub groomers: u16,
    pub slopes: u16,
    pub turns: u16,
}
