// The history judge: from a model's strip, a sheet's strip and now, whether the formula grants, since which moment or for which cause not.
#![tactic(auto)]

pub mod check;
pub mod scan;

ghost use Rattle.judge.specs.Judge.{Judges};

use formula::Verdict;
use rules::refusal::Refusal;

// kept: two strips and now side by side, here and wherever they go together, as RULES.md 6 and 7 and the calls of C have them.
pub fn judge(m: &[u32], s: &[u32], now: u32) -> Result<Verdict, Refusal>
    ensures { Judges m.now s.now now result }
{
    check::check(m, s, now)?;
    let seen = scan::scan(m, s);
    let stands = seen.standing;
    Ok(stepping::told(stands))
}
