// From one tick with an event to the next, and how the pair stands then: what the judge and the spans go by.
#![tactic(auto)]

ghost use Rattle.std.specs.Prelude.{◌≡◌};
ghost use Rattle.standing.specs.Scan.{told_by, holding, ended_by, stands_after, step_of};
ghost use Rattle.stepping.specs.Next.{head_of};

use formula::{Cause, Moment, Verdict};
use standing::{Seen, Standing};

// The next event of a strip: its tick and kind; past the strip's end no tick comes.
#[derive(Clone, Copy)]
pub struct Head {
    pub tick: u32,
    pub kind: u32,
}

// Above the tick of any word.
// kept: `next_event` promises `head_of`, which has this tick past the end (docs/PROMISES.md).
pub const NEVER: u32 = 1048576;

// Before the first tick.
pub const START: Seen = Seen {
    inside: false,
    liberal: false,
    standing: Standing::Never,
};

// A strict event ends a grant and nothing else.
fn ended(before: Standing, end: Standing) -> Standing
    ensures { result ≡ ended_by before end }
{
    match before {
        Standing::ByAdd(_) | Standing::ByJoin(_) => end,
        Standing::Never | Standing::Left(_) | Standing::Removed(_) => before,
    }
}

fn stands(
    before: Standing,
    tick: u32,
    added: bool,
    joined: bool,
    left: bool,
    removed: bool,
) -> Standing
    ensures { result ≡ stands_after before tick added joined left removed }
{
    if added {
        return Standing::ByAdd(tick);
    }
    if joined {
        return Standing::ByJoin(tick);
    }
    if left {
        return ended(before, Standing::Left(tick));
    }
    if removed {
        return ended(before, Standing::Removed(tick));
    }
    before
}

// One tick with its events.
pub fn step(before: Seen, tick: u32, model: u32, sheet: u32) -> Seen
    ensures { result ≡ step_of before tick model sheet }
{
    // kept: kinds as numbers, QUIET for none, since `step_of` takes them; and by `matches!` spans-even misses the aim of 1.2 further, 67.2 µs for 60.0.
    let join = (model == rules::SJ) | (model == rules::LJ);
    let leave = (model == rules::SL) | (model == rules::LL);
    let add = (sheet == rules::SA) | (sheet == rules::LA);
    let remove = (sheet == rules::SR) | (sheet == rules::LR);
    let inside = join | (!leave & before.inside);
    let liberal = (sheet == rules::LA) | (!remove & before.liberal);
    let stood = before.standing;
    let standing = stands(
        stood,
        tick,
        add & inside,
        (model == rules::LJ) & liberal,
        model == rules::SL,
        sheet == rules::SR,
    );
    Seen {
        inside,
        liberal,
        standing,
    }
}

pub fn next_event(s: &[u32], i: usize) -> Head
    ensures { result ≡ head_of s.now i }
{
    if i < s.len() {
        let word = s[i];
        Head {
            tick: event::tick(word),
            kind: event::kind(word),
        }
    } else {
        Head {
            tick: NEVER,
            kind: rules::QUIET,
        }
    }
}

// The grant holds.
pub fn holds(standing: Standing) -> bool
    ensures { result ≡ holding standing }
{
    matches!(standing, Standing::ByAdd(_) | Standing::ByJoin(_))
}

// kept: a function by this name: docs/PROMISES.md promises it.
pub fn told(standing: Standing) -> Verdict
    ensures { result ≡ told_by standing }
{
    match standing {
        Standing::Never => Verdict::Denied(Cause::None),
        Standing::ByAdd(tick) => Verdict::Granted(Moment::Add(tick)),
        Standing::ByJoin(tick) => Verdict::Granted(Moment::Join(tick)),
        Standing::Left(tick) => Verdict::Denied(Cause::StrictLeave(tick)),
        Standing::Removed(tick) => Verdict::Denied(Cause::StrictRemove(tick)),
    }
}
