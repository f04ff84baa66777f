// The judge for the plot loader: a strip comes as bytes, four a word, and the answer goes as one number.
#![tactic(auto)]

ghost use Rattle.std.specs.Prelude.{◌≡◌, ◌/◌, ◌≤◌, length};
ghost use Rattle.rules.specs.Ranges.{events};
ghost use Rattle.wire.specs.Words.{words_in};
ghost use Rattle.judge.specs.Judge.{judged_by};
ghost use Rattle.loader.specs.Judge.{whole_strip, packed_answer, judged_from};

use formula::Verdict;
use rules::EVENTS;
use rules::refusal::Refusal;

// Strips of at most so many words are judged in lists of this length: to clear lists for the longest takes longer than to judge a short strip.
const SHORT: usize = 64;

// A strip's bytes are whole words, and not too many.
fn whole(length: usize) -> bool
    ensures { result ≡ whole_strip length }
{
    (length % 4 == 0) & (length <= 4 * EVENTS)
}

// The answer's number and value in one number; a refusal is any number, with its place.
// kept: a function by this name: docs/PROMISES.md promises it, on any number that a refusal has.
pub fn pack(answer: Result<Verdict, (u32, u32)>) -> u64
    ensures { result ≡ packed_answer answer }
{
    u64::from(formula::number(answer)) * 4294967296 + u64::from(formula::value(answer))
}

pub fn judged(m: &[u8], s: &[u8], now: u32) -> Result<Verdict, Refusal>
    ensures { result ≡ judged_from m.now s.now now }
{
    if now > rules::TICKS {
        return Err(Refusal::LateNow);
    }
    if !whole(m.len()) {
        return Err(Refusal::LongModel);
    }
    if !whole(s.len()) {
        return Err(Refusal::LongSheet);
    }
    on_words(m, s, now)
}

fn on_words(m: &[u8], s: &[u8], now: u32) -> Result<Verdict, Refusal>
    requires { (length m.now / 4 ≤ events) × (length s.now / 4 ≤ events) }
    ensures { result ≡ judged_by (words_in m.now) (words_in s.now) now }
{
    if m.len() / 4 <= SHORT && s.len() / 4 <= SHORT {
        in_lists::<SHORT>(m, s, now)
    } else {
        in_lists::<EVENTS>(m, s, now)
    }
}

// The strips' words, each strip's at the front of a list of N, and the judge on them.
fn in_lists<const N: usize>(m: &[u8], s: &[u8], now: u32) -> Result<Verdict, Refusal>
    requires { (N ≤ events) × (length m.now / 4 ≤ N) × (length s.now / 4 ≤ N) }
    ensures { result ≡ judged_by (words_in m.now) (words_in s.now) now }
{
    let mut model = [0u32; N];
    let mut sheet = [0u32; N];
    let n = wire::decode(m, &mut model);
    let k = wire::decode(s, &mut sheet);
    judge::judge(&model[..n], &sheet[..k], now)
}
