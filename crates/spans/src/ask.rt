// Which models and sheets the arguments ask for: all, one model's, or one pair.

use lines::has_arguments;
use std::env::{Env, FillError};
use std::ops::Range;
use std::str;

#[derive(Drop)]
pub struct Asked {
    pub models: Range<u32>,
    pub sheets: Range<u32>,
}

// The most digits of a number.
const DIGITS: usize = 20;

// The one number that a word is, digits and nothing else, leading zeros allowed; none where it is no number below the limit.
fn one(word: &[u8], limit: u32) -> Option<Range<u32>> {
    // `parse` would take a plus
    if !word.iter().all(|byte| byte.is_ascii_digit()) {
        return None;
    }
    let number: u32 = str::from_utf8(word).ok()?.parse().ok()?;
    if number >= limit {
        return None;
    }
    Some(number..number + 1)
}

// Argument i as one number below a limit, or all below it where there is no such argument.
fn one_or_all<E: Env>(rt: &E, i: usize, limit: u32) -> Option<Range<u32>> {
    let mut word = [0; DIGITS];
    match rt.arg(i, &mut word) {
        Ok(n) => one(&word[..n], limit),
        Err(FillError::TooLong) => None,
        Err(FillError::NotPresent) => Some(0..limit),
    }
}

// None where the arguments can't be taken.
pub fn arguments<E: Env>(rt: &E) -> Option<Asked> {
    let models = one_or_all(rt, 1, rules::MODELS)?;
    let sheets = one_or_all(rt, 2, rules::SHEETS)?;
    if has_arguments(rt, 3) {
        return None;
    }
    Some(Asked { models, sheets })
}
