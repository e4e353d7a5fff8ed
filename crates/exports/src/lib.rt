// The C functions, in one archive for C or Rust to link: a module for each family, one that makes a refusal one number, and one that takes the
// reading as one.
// Each function answers with one number, and no struct is passed by value.
#![tactic(auto)]

pub mod packing; // a refusal as one number
mod reading; // the reading as one
pub mod text; // over `utf8`
pub mod tokens; // over `token`
pub mod strings; // over `string`
pub mod numbers; // over `number`
pub mod durations; // over `duration`
pub mod queries; // over `lex` and `reason`
