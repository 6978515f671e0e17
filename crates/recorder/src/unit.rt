// Units of the text that the code asks for, by name.

pub const BLANK: u16 = b' ' as u16;

pub const QUOTE: u16 = b'"' as u16;

pub const PLUS: u16 = b'+' as u16;

// The sigils of a text's name and of a whole number's.
pub const DOLLAR: u16 = b'$' as u16;

pub const PERCENT: u16 = b'%' as u16;

// The first and the last of the digits and of the letters.
pub const ZERO: u16 = b'0' as u16;

pub const NINE: u16 = b'9' as u16;

pub const UPPER_A: u16 = b'A' as u16;

pub const UPPER_Z: u16 = b'Z' as u16;

pub const LOWER_A: u16 = b'a' as u16;

pub const LOWER_Z: u16 = b'z' as u16;
