// Text in a lent buffer: bytes and decimal numbers, one behind the other. What doesn't fit is left out whole.
#![tactic(auto)]

ghost use Rattle.std.specs.Prelude.{◌≡◌, ◌+◌, ◌<◌, ◌≤◌, length, take, Some, decimal};
ghost use Rattle.text.specs.Digits.{last_digits, IsDigitCount};
ghost use Rattle.text.specs.Text.{added, added_end, AddsDecimal};

use std::{fmt, str};

// The digits of the largest number.
const DIGITS: usize = 20;

// Adds the text at place `at` and answers the place behind it, or `at` where it doesn't fit.
#[tactic(auto, using(wire::proofs::Put::put_lent))]
pub fn add(out: &mut [u8], at: usize, text: &[u8]) -> usize
    ensures { (result ≡ added_end out.old at text.now) × (out.new ≡ added out.old at text.now) }
{
    if at > out.len() {
        return at;
    }
    if text.len() > out.len() - at {
        return at;
    }
    let end = at + text.len();
    out[at..end].copy_from_slice(text);
    end
}

// A number as the programs print it.
#[derive(Clone, Copy)]
pub struct Number(pub u64);

impl fmt::Display for Number {
    ghost output = { λ n. Some (decimal n.0) };

    #[tactic(auto, using(crate::proofs::Printed::number_printed))]
    fn fmt<W: fmt::Write>(&self, f: &mut fmt::Formatter<W>) -> fmt::Result {
        let n = self.0;
        let mut digits = [0u8; DIGITS];
        let end = add_decimal(&mut digits, 0, n);
        // that digits are text is proved; to look at them again took two fifths of a number's time
        f.write_str(unsafe { str::from_utf8_unchecked(&digits[..end]) })
    }
}

// Adds a number in decimal digits, as few as it takes.
pub fn add_decimal(out: &mut [u8], at: usize, n: u64) -> usize
    ensures { AddsDecimal out.old at n out.new result }
{
    add_digits(out, at, n, digit_count(n))
}

// Adds the last k digits of a number, in place: to gather them elsewhere first took a sixth of the time of `spans`.
#[tactic(auto, using(crate::proofs::Printed::digits_length, crate::proofs::Printed::digits_put))]
fn add_digits(out: &mut [u8], at: usize, n: u64, k: usize) -> usize
    ensures { (result ≡ added_end out.old at (last_digits k n)) × (out.new ≡ added out.old at (last_digits k n)) }
{
    if at > out.len() {
        return at;
    }
    if k > out.len() - at {
        return at;
    }
    let end = at + k;
    write_digits(n, k, &mut out[at..end]);
    end
}

// How many digits a number takes.
fn digit_count(n: u64) -> usize
    ensures room { result ≤ 20 }
    ensures count { IsDigitCount n result }
{
    n.checked_ilog10().map_or(1, |k| k as usize + 1)
}

// Puts the last k digits of a number at the front of `out`.
// kept: the digits by hand, from the back: `last_digits` has them so.
fn write_digits(n: u64, k: usize, out: &mut [u8])
    requires { k ≤ length out.old }
    ensures { take k out.new ≡ last_digits k n }
{
    let mut rest = n;
    for i in (0..k).rev() {
        out[i] = digit(rest % 10);
        rest /= 10;
    }
}

// A digit in ASCII.
fn digit(d: u64) -> u8
    requires { d < 10 }
    ensures { result ≡ 48 + d }
{
    b'0' + d as u8
}
