// The numbers of document 01's words, lists and limits, each said here alone.

pub const WORD_SIZE: u64 = 4294967296;

// Payloads are below it, as lengths of lines, places in them, labels and the halves of a mantissa are below the next ones.
pub const PAYLOAD_SIZE: u32 = 16777216;

pub const LINE_SIZE: u32 = 4096;

pub const LABEL_SIZE: u32 = 65536;

pub const HALF_SIZE: u32 = 65536;

// The most words of a sheet and units of a text, records, depths of statements and expressions, and units of a text in the list.
pub const SHEET_LIMIT: usize = 65536;

pub const RECORD_LIMIT: usize = 65535;

pub const DEPTH_LIMIT: usize = 64;

pub const TEXT_LIMIT: u32 = 255;

// A number is m × 2^(e−160).
pub const BIAS: u32 = 160;

// The numbers one half and one have these exponents, and the least mantissa that a number has; that mantissa's high half.
pub const ONE_HALF: u32 = 128;

pub const ONE: u32 = 129;

pub const LEAST_MANTISSA: u32 = 2147483648;

pub const LEAST_HIGH: u32 = 32768;

// The exponent of a literal that is too large.
pub const TOO_LARGE: u32 = 256;
