// The causes of a refusal, by the numbers that C gets and the definitions have (`encoding`, `not_utf8`).
// Stays numbers: `Refusal.cause` is one in the definitions and in C.

// Most refusals have none.
pub const NO_CAUSE: u8 = 0;

// Bytes of a string that can't be decoded.
pub const ENCODING: u8 = 1;

// Bytes of a string that are not UTF-8.
pub const NOT_UTF8: u8 = 2;
