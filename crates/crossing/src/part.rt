// Parts of lent lists: which list, the first word, how many.
ghost use Rattle.std.specs.Prelude.{◌≡◌};
ghost use Rattle.judge.specs.Judge.{judged_by};
ghost use Rattle.tick.specs.Tick.{tick_start};
ghost use Rattle.crossing.specs.Part.{evidence_part, records_part};

use formula::{Moment, Verdict};

// list: 0 the model's strip, 1 the sheet's.
#[repr(C)]
#[derive(Clone, Copy)]
pub struct Part {
    pub list: u32,
    pub first: usize,
    pub count: usize,
}

// The evidence is a tail, so its length says where it starts; the verdict says of which strip.
pub fn evidence<'a>(m: &'a [u32], s: &'a [u32], now: u32) -> Part
    ensures { result ≡ evidence_part (judged_by m.now s.now now) m.now s.now }
{
    let part = evidence::evidence(m, s, now);
    let count = part.len();
    match judge::judge(m, s, now) {
        Ok(Verdict::Granted(Moment::Add(_))) => Part {
            list: 1,
            first: s.len() - count,
            count,
        },
        Ok(Verdict::Granted(Moment::Join(_))) => Part {
            list: 0,
            first: m.len() - count,
            count,
        },
        _ => Part {
            list: 0,
            first: 0,
            count,
        },
    }
}

// Where the records of a tick stand, or would stand.
fn start(words: &[u32], tick: u32) -> usize
    ensures { result ≡ tick_start words.now tick }
{
    if !tick::is_rising(words) {
        return 0;
    }
    tick::place_from(words, tick as u64)
}

// The records of a tick.
pub fn records(words: &[u32], tick: u32) -> Part
    ensures { result ≡ records_part words.now tick }
{
    let part = tick::tick_part(words, tick);
    let count = part.len();
    Part {
        list: 0,
        first: start(words, tick),
        count,
    }
}
