// How far things go.

/// The units of a text that an operator or a native makes: at most so many.
pub const TEXT_LIMIT: usize = 1 << 24;

/// The end of the array indices (ECMA-262 edition 5.1, 15.4), which is the largest length of an array.
pub const INDEX_END: u32 = 0xFFFF_FFFF;

/// The end of the whole numbers, moments and readings of the clock, both in milliseconds: each is below it.
pub const SAFE_END: u64 = 1 << 53;

/// The bytes of a page, as given: at most so many.
pub const PAGE_LIMIT: usize = 4 << 20;
