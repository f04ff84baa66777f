// When could a model read a sheet? From their strips and now, the spans of ticks in which the grant held, as pairs (first tick, last tick).
#![tactic(auto)]

ghost use Rattle.std.specs.Prelude.{◌≡◌, length, Ok, Err};
ghost use Rattle.judge.specs.Judge.{StripsAccepted, checked};
ghost use Rattle.span.specs.Answer.{spans_in, counted, spans_answer, list_after};
ghost use Rattle.spanning.specs.Steps.{pairs_from};

use rules::refusal::Refusal;
use spanning::Spanning;

// For C, in numbers: a refusal's number with its place, 0 where it has none, and count 0; or 0 and 0 with how many spans there are.
// kept: numbers are the C interface.
#[repr(C)]
#[derive(Clone, Copy)]
pub struct SpansAnswer {
    pub code: u32,
    pub place: u32,
    pub count: u32,
}

impl From<Result<u32, Refusal>> for SpansAnswer {
    ghost from_gives = { λ answer numbers. numbers ≡ counted answer };

    fn from(answer: Result<u32, Refusal>) -> Self {
        match answer {
            Ok(count) => SpansAnswer {
                code: 0,
                place: 0,
                count,
            },
            Err(refusal) => SpansAnswer {
                code: refusal.number(),
                place: refusal.place(),
                count: 0,
            },
        }
    }
}

// One pass over both strips counts the spans, and writes those pairs for which the list has room.
fn pairs(m: &[u32], s: &[u32], now: u32, list: &mut [u32]) -> usize
    requires { StripsAccepted m.now s.now now }
    ensures { (result ≡ length (spans_in m.now s.now now)) × (list.new ≡ pairs_from list.old 0 (spans_in m.now s.now now)) }
{
    let mut pass = pass::begin(m, s);
    let mut spanning = Spanning { first: 0, count: 0 };
    // kept: by the places that the pass holds, since `pass::advance` promises `advanced`, which moves them.
    while pass.i + pass.j < m.len() + s.len() {
        pass = pass::advance(m, s, pass);
        let seen = pass.seen;
        let standing = seen.standing;
        spanning = spanning::turn(&mut *list, spanning, pass.tick, stepping::holds(standing));
    }
    let last = spanning::end(list, spanning, now);
    last.count
}

// The check, kept apart: with it inside, the passes over the strips take a tenth longer.
#[inline(never)]
fn check(m: &[u32], s: &[u32], now: u32) -> Result<(), Refusal>
    ensures { result ≡ checked m.now s.now now Err (Ok tt) }
{
    judge::check::check(m, s, now)
}

// How many spans there are, all of them written.
pub fn spans(m: &[u32], s: &[u32], now: u32, list: &mut [u32]) -> Result<u32, Refusal>
    ensures { (counted result ≡ spans_answer m.now s.now now (length list.old)) × (list.new ≡ list_after m.now s.now now list.old) }
{
    check(m, s, now)?;
    // As many numbers as the strips have words are always enough.
    if list.len() >= m.len() + s.len() {
        return Ok(pairs(m, s, now, list) as u32);
    }
    // With no room the pass only counts: nothing is written before it is known that all pairs fit.
    let room: usize = 0;
    let count = pairs(m, s, now, &mut list[0..room]);
    if list.len() / 2 < count {
        return Err(Refusal::TooManySpans);
    }
    Ok(pairs(m, s, now, list) as u32)
}
