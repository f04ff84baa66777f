// What is asked of two strips and now before anything is answered about them: refusals 10 to 14.
ghost use Rattle.std.specs.Prelude.{◌≡◌, Ok, Err};
ghost use Rattle.judge.specs.Judge.{checked};

use rules::refusal::Refusal;
use strip::Side;

pub fn check(m: &[u32], s: &[u32], now: u32) -> Result<(), Refusal>
    ensures { result ≡ checked m.now s.now now Err (Ok tt) }
{
    if now > rules::TICKS {
        return Err(Refusal::LateNow);
    }
    if m.len() > rules::EVENTS {
        return Err(Refusal::LongModel);
    }
    if s.len() > rules::EVENTS {
        return Err(Refusal::LongSheet);
    }
    let bad = strip::first_bad(Side::Model, now, m);
    if bad < m.len() {
        return Err(Refusal::BadModel(bad as u32));
    }
    let bad = strip::first_bad(Side::Sheet, now, s);
    if bad < s.len() {
        return Err(Refusal::BadSheet(bad as u32));
    }
    Ok(())
}
