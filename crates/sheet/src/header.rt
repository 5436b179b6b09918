// A sheet's header.

pub const HEADER_BYTES: usize = 7;
