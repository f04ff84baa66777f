// What the judge answers, and the rules' number and value for each case (RULES.md 6.3).
#![tactic(auto)]

ghost use Rattle.std.specs.Prelude.{◌≡◌};
ghost use Rattle.formula.specs.Numbers.{answer_number, answer_value};

// A tick where a bracket of the formula holds.
#[derive(Clone, Copy, Debug, PartialEq, Eq)]
pub enum Moment {
    Add(u32),
    Join(u32),
}

// Why a grant is not there: no moment ever, or the strict event that ended it, with its tick.
#[derive(Clone, Copy, Debug, PartialEq, Eq)]
pub enum Cause {
    None,
    StrictLeave(u32),
    StrictRemove(u32),
}

#[derive(Clone, Copy, Debug, PartialEq, Eq)]
pub enum Verdict {
    Granted(Moment),
    Denied(Cause),
}

// Here and below the refusal is any number, with its place.
// kept: functions by these names, here and below: docs/PROMISES.md promises them, on any number that a refusal has.
pub fn number(answer: Result<Verdict, (u32, u32)>) -> u32
    ensures { result ≡ answer_number answer }
{
    match answer {
        Ok(Verdict::Granted(Moment::Add(_))) => 101,
        Ok(Verdict::Granted(Moment::Join(_))) => 102,
        Ok(Verdict::Denied(Cause::None)) => 103,
        Ok(Verdict::Denied(Cause::StrictLeave(_))) => 104,
        Ok(Verdict::Denied(Cause::StrictRemove(_))) => 105,
        Err((number, _)) => number,
    }
}

pub fn value(answer: Result<Verdict, (u32, u32)>) -> u32
    ensures { result ≡ answer_value answer }
{
    match answer {
        Ok(Verdict::Granted(Moment::Add(tick) | Moment::Join(tick))) => tick,
        Ok(Verdict::Denied(Cause::None)) => 0,
        Ok(Verdict::Denied(Cause::StrictLeave(tick) | Cause::StrictRemove(tick))) => tick,
        Err((_, place)) => place,
    }
}
