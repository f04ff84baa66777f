// The evidence: the tail of the strip that has the latest moment's record, from that record on.
#![tactic(auto)]

ghost use Rattle.std.specs.Prelude.{◌≡◌, ◌≤◌, length};
ghost use Rattle.judge.specs.Judge.{judged_by};
ghost use Rattle.evidence.specs.Evidence.{place_of, evidence_of, start_of};

use formula::{Moment, Verdict};

// The first place with an event of a tick, the strip's length where there is none.
fn place_of(s: &[u32], tick: u32) -> usize
    ensures { (result ≡ place_of s.now tick) × (result ≤ length s.now) }
{
    let here = s.iter().position(|word| event::tick(*word) == tick);
    here.unwrap_or(s.len())
}

// Denied or refused: the empty part at the start of the model's strip.
pub fn evidence<'a>(m: &'a [u32], s: &'a [u32], now: u32) -> &'a [u32]
    ensures { (result.now ≡ evidence_of (judged_by m.now s.now now) m.now s.now)
        × (result.ref_ptr ≡ start_of (judged_by m.now s.now now) m.entry s.entry) }
{
    match judge::judge(m, s, now) {
        Ok(Verdict::Granted(Moment::Add(tick))) => &s[place_of(s, tick)..],
        Ok(Verdict::Granted(Moment::Join(tick))) => &m[place_of(m, tick)..],
        _ => &m[..0],
    }
}
