// The pass over two strips, taken a tick at a time: for callers that want to know what held between the events. The judge, which wants only the end, has a loop
// of its own over the same steps and laws: a turn that two loops share is not inlined, and costs it a third of its speed.
#![tactic(auto)]

ghost use Rattle.std.specs.Prelude.{◌≡◌, ◌≤◌, length};
ghost use Rattle.pass.specs.Pass.{begun, advanced};

// Where the pass stands: the places of the next events, what these are, the last tick taken, and what is known after it.
#[derive(Clone, Copy)]
pub struct Pass {
    pub i: usize,
    pub j: usize,
    pub model: stepping::Head,
    pub sheet: stepping::Head,
    pub tick: u32,
    pub seen: standing::Seen,
}

// Before the first tick.
pub fn begin(m: &[u32], s: &[u32]) -> Pass
    ensures { result ≡ begun m.now s.now }
{
    Pass {
        i: 0,
        j: 0,
        model: stepping::next_event(m, 0),
        sheet: stepping::next_event(s, 0),
        tick: 0,
        seen: stepping::START,
    }
}

// Takes the events of the next tick that has any.
// kept: a turn beside that of `judge::scan`: one that two loops share isn't inlined, and costs the judge a third of its speed; and by value, as `advanced` has it.
pub fn advance(m: &[u32], s: &[u32], pass: Pass) -> Pass
    requires { (pass.i ≤ length m.now) × (pass.j ≤ length s.now) }
    ensures { result ≡ advanced m.now s.now pass }
{
    let model = pass.model;
    let sheet = pass.sheet;
    let seen = pass.seen;
    if model.tick < sheet.tick {
        let i = pass.i + 1;
        return Pass {
            i,
            j: pass.j,
            model: stepping::next_event(m, i),
            sheet,
            tick: model.tick,
            seen: stepping::step(seen, model.tick, model.kind, rules::QUIET),
        };
    }
    if sheet.tick < model.tick {
        let j = pass.j + 1;
        return Pass {
            i: pass.i,
            j,
            model,
            sheet: stepping::next_event(s, j),
            tick: sheet.tick,
            seen: stepping::step(seen, sheet.tick, rules::QUIET, sheet.kind),
        };
    }
    let i = pass.i + 1;
    let j = pass.j + 1;
    Pass {
        i,
        j,
        model: stepping::next_event(m, i),
        sheet: stepping::next_event(s, j),
        tick: model.tick,
        seen: stepping::step(seen, model.tick, model.kind, sheet.kind),
    }
}
