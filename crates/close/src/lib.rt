// A close: the open tick's requests come to count, all at once, and the next tick is open.
#![tactic(auto)]

ghost use Rattle.std.specs.Prelude.{◌≡◌, ◌<◌};
ghost use Rattle.rules.specs.Ranges.{ticks};
ghost use Rattle.rules.specs.Refusal.{told, alone};
ghost use Rattle.group.specs.Close.{closed_group, close_answer};
ghost use Rattle.close.specs.Settled.{settled_by};

use group::{Answer, Group};
use rules::TICKS;
use rules::refusal::Refusal;

// All of a close but the grants: who is in after the tick, and the sheets with an add in it.
#[derive(Clone, Copy)]
pub struct Settled {
    pub members: u64,
    pub adds: [u64; 4],
    pub added: [u64; 4],
    pub liberal: [u64; 4],
}

#[tactic(auto, unfolding(group::specs::Close::closed_members, group::specs::Close::closed_added, group::specs::Close::closed_liberal))]
pub fn settle(group: &Group) -> Settled
    ensures { result ≡ settled_by group.now }
{
    let removes = sets::either(group.sr, group.lr);
    let adds = sets::either(group.sa, group.la);
    Settled {
        members: bits::after_word(group.members, group.sl | group.ll, group.sj | group.lj),
        adds,
        added: sets::after(group.added, removes, adds),
        liberal: sets::after(group.liberal, removes, group.la),
    }
}

// The open tick closed, where the group stands.
#[tactic(auto, unfolding(group::specs::Close::closed_group))]
pub fn close_tick(g: &mut Group)
    requires { g.old.closed < ticks }
    ensures { g.new ≡ closed_group g.old }
{
    let Settled {
        members,
        adds,
        added,
        liberal,
    } = settle(g);
    grants::close_words(&mut g.grants, g.sr, adds, liberal, members, g.sl, g.lj);
    g.closed += 1;
    g.members = members;
    g.sj = 0;
    g.lj = 0;
    g.sl = 0;
    g.ll = 0;
    g.added = added;
    g.liberal = liberal;
    g.sa = [0; 4];
    g.la = [0; 4];
    g.sr = [0; 4];
    g.lr = [0; 4];
}

pub fn after_close(mut group: Group) -> Group
    requires { group.closed < ticks }
    ensures { result ≡ closed_group group }
{
    close_tick(&mut group);
    group
}

// A close taken where the group stands; a refusal leaves it as it was.
#[tactic(auto, unfolding(group::specs::Close::close_answer))]
pub fn take(g: &mut Group) -> Result<(), Refusal>
    ensures answer { told result ≡ alone (close_answer g.old).code }
    ensures group { g.new ≡ (close_answer g.old).group }
{
    if g.closed >= TICKS {
        return Err(Refusal::NoTickLeft);
    }
    close_tick(g);
    Ok(())
}

// kept: a group by value, and a number beside it, are the C interface
#[tactic(auto, unfolding(group::specs::Close::close_answer))]
pub fn close(group: Group) -> Answer
    ensures { result ≡ close_answer group }
{
    if group.closed >= TICKS {
        return Answer {
            code: Refusal::NoTickLeft.number(),
            group,
        };
    }
    Answer {
        code: 0,
        group: after_close(group),
    }
}
