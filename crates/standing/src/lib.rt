// How a pair of a model and a sheet stands after each tick, by their events in it, and that this tells what the formula says. No code: crates/stepping has it.
#![tactic(auto)]

// How the pair stands after a tick: the latest moment, or the strict event that ended the grant, with its tick.
#[derive(Clone, Copy)]
pub enum Standing {
    Never,
    ByAdd(u32),
    ByJoin(u32),
    Left(u32),
    Removed(u32),
}

// What the pass knows after a tick: the model is in, the sheet's liberal stay, how the pair stands.
#[derive(Clone, Copy)]
pub struct Seen {
    pub inside: bool,
    pub liberal: bool,
    pub standing: Standing,
}
