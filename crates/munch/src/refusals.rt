// What a step is refused with: document 01's refusals, in its order, but for those of a string, which `quoted` gives.
pub const UNCLOSED_PAREN: usize = 10;

pub const REGEX_OUTSIDE: usize = 11;

pub const AFTER_BANG: usize = 12;

pub const END_AFTER_BANG: usize = 13;

pub const AFTER_DOT: usize = 14;

pub const END_AFTER_DOT: usize = 15;

pub const UNMATCHED_PAREN: usize = 16;

pub const UNMATCHED_BRACE: usize = 17;

pub const UNMATCHED_BRACKET: usize = 18;

pub const OTHER: usize = 19;

pub const NEITHER_NUMBER_NOR_DURATION: usize = 20;

pub const AFTER_BANG_IN_BRACES: usize = 24;

pub const BRACE_IN_BRACES: usize = 25;

pub const OTHER_IN_BRACES: usize = 26;

pub const END_IN_BRACES: usize = 27;

pub const SECOND_COLON: usize = 28;

pub const COLON_FIRST: usize = 29;

pub const BRACKET_IN_BRACKETS: usize = 30;

pub const OTHER_IN_BRACKETS: usize = 31;

pub const END_IN_BRACKETS: usize = 32;
