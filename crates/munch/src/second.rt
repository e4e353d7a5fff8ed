// The steps that the byte behind the first decides, where that is an equals sign, an exclamation mark or a sign that compares.
ghost use Rattle.std.specs.Prelude.{◌≡◌};
ghost use Rattle.munch.specs.Munch.{equals_step, bang_step, compare_step, brace_equals, brace_bang};

use crate::{Mode, Step, lexeme, refusals, refused, signs};
use scan::byte;
use token::kinds;

// An equals sign outside.
#[tactic(auto, unfolding(crate::specs::Munch::equals_step))]
pub fn equals_step(s: &[u8], mode: Mode) -> Step
    ensures { result ≡ equals_step mode s.now }
{
    match byte::peek(s, 1) {
        signs::EQUALS => lexeme(kinds::T_EQLC, 2, mode),
        signs::TILDE => refused(refusals::REGEX_OUTSIDE, 1),
        _ => lexeme(kinds::T_EQL, 1, mode),
    }
}

// An exclamation mark outside.
#[tactic(auto, unfolding(crate::specs::Munch::bang_step))]
pub fn bang_step(s: &[u8], mode: Mode) -> Step
    ensures { result ≡ bang_step mode s.now }
{
    match byte::peek(s, 1) {
        signs::EQUALS => lexeme(kinds::T_NEQ, 2, mode),
        byte::END => refused(refusals::END_AFTER_BANG, 1),
        _ => refused(refusals::AFTER_BANG, 1),
    }
}

// A sign that compares, alone or with an equals sign.
#[tactic(auto, unfolding(crate::specs::Munch::compare_step))]
pub fn compare_step(s: &[u8], equal: u16, alone: u16, mode: Mode) -> Step
    ensures { result ≡ compare_step equal alone mode s.now }
{
    match byte::peek(s, 1) {
        signs::EQUALS => lexeme(equal, 2, mode),
        _ => lexeme(alone, 1, mode),
    }
}

// An equals sign in braces.
#[tactic(auto, unfolding(crate::specs::Munch::brace_equals))]
pub fn brace_equals(s: &[u8], mode: Mode) -> Step
    ensures { result ≡ brace_equals mode s.now }
{
    match byte::peek(s, 1) {
        signs::TILDE => lexeme(kinds::T_EQL_REGEX, 2, mode),
        _ => lexeme(kinds::T_EQL, 1, mode),
    }
}

// An exclamation mark in braces.
#[tactic(auto, unfolding(crate::specs::Munch::brace_bang))]
pub fn brace_bang(s: &[u8], mode: Mode) -> Step
    ensures { result ≡ brace_bang mode s.now }
{
    match byte::peek(s, 1) {
        signs::EQUALS => lexeme(kinds::T_NEQ, 2, mode),
        signs::TILDE => lexeme(kinds::T_NEQ_REGEX, 2, mode),
        byte::END => refused(refusals::END_AFTER_BANG, 1),
        _ => refused(refusals::AFTER_BANG_IN_BRACES, 1),
    }
}
