// The signs that a step is told by, as bytes.
pub const LEFT_BRACE: usize = b'{' as usize;

pub const RIGHT_BRACE: usize = b'}' as usize;

pub const LEFT_BRACKET: usize = b'[' as usize;

pub const RIGHT_BRACKET: usize = b']' as usize;

pub const COMMA: usize = b',' as usize;

pub const EQUALS: usize = b'=' as usize;

pub const BANG: usize = b'!' as usize;

pub const LESS: usize = b'<' as usize;

pub const GREATER: usize = b'>' as usize;

pub const DOT: usize = b'.' as usize;

pub const COLON: usize = b':' as usize;

pub const HASH: usize = b'#' as usize;

pub const TILDE: usize = b'~' as usize;
