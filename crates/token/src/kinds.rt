// The kinds of lexemes: the Rust's names with document 01's numbers, in its order.

// What is no operator and no word.
pub const T_EOF: u16 = 0;

pub const T_IDENTIFIER: u16 = 1;

pub const T_METRIC_IDENTIFIER: u16 = 2;

pub const T_STRING: u16 = 3;

pub const T_NUMBER: u16 = 4;

pub const T_DURATION: u16 = 5;

pub const T_LEFT_PAREN: u16 = 6;

pub const T_RIGHT_PAREN: u16 = 7;

pub const T_LEFT_BRACE: u16 = 8;

pub const T_RIGHT_BRACE: u16 = 9;

pub const T_LEFT_BRACKET: u16 = 10;

pub const T_RIGHT_BRACKET: u16 = 11;

pub const T_COMMA: u16 = 12;

pub const T_COLON: u16 = 13;

pub const T_EQL: u16 = 14;

// Operators.
pub const T_ADD: u16 = 20;

pub const T_SUB: u16 = 21;

pub const T_MUL: u16 = 22;

pub const T_DIV: u16 = 23;

pub const T_MOD: u16 = 24;

pub const T_POW: u16 = 25;

pub const T_EQLC: u16 = 26;

pub const T_NEQ: u16 = 27;

pub const T_LTE: u16 = 28;

pub const T_LSS: u16 = 29;

pub const T_GTE: u16 = 30;

pub const T_GTR: u16 = 31;

pub const T_EQL_REGEX: u16 = 32;

pub const T_NEQ_REGEX: u16 = 33;

pub const T_AT: u16 = 34;

pub const T_LAND: u16 = 35;

pub const T_LOR: u16 = 36;

pub const T_LUNLESS: u16 = 37;

pub const T_ATAN2: u16 = 38;

// Aggregators.
pub const T_SUM: u16 = 40;

pub const T_AVG: u16 = 41;

pub const T_COUNT: u16 = 42;

pub const T_MIN: u16 = 43;

pub const T_MAX: u16 = 44;

pub const T_GROUP: u16 = 45;

pub const T_STDDEV: u16 = 46;

pub const T_STDVAR: u16 = 47;

pub const T_TOPK: u16 = 48;

pub const T_BOTTOMK: u16 = 49;

pub const T_COUNT_VALUES: u16 = 50;

pub const T_QUANTILE: u16 = 51;

pub const T_LIMITK: u16 = 52;

pub const T_LIMIT_RATIO: u16 = 53;

// Keywords.
pub const T_OFFSET: u16 = 60;

pub const T_BY: u16 = 61;

pub const T_WITHOUT: u16 = 62;

pub const T_ON: u16 = 63;

pub const T_IGNORING: u16 = 64;

pub const T_GROUP_LEFT: u16 = 65;

pub const T_GROUP_RIGHT: u16 = 66;

pub const T_BOOL: u16 = 67;

pub const T_SMOOTHED: u16 = 68;

pub const T_ANCHORED: u16 = 69;

pub const T_FILL: u16 = 70;

pub const T_FILL_LEFT: u16 = 71;

pub const T_FILL_RIGHT: u16 = 72;

// Preprocessors.
pub const T_START: u16 = 80;

pub const T_END: u16 = 81;
