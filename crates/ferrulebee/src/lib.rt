// The gate as C has it: each call with its promise, where enums and parts of lists cross as numbers. `ferrulebee_c` exports them.
// Here the judge: plain numbers and slices in, one number out.
#![tactic(auto)]

pub mod book_calls;
pub mod deliver;
pub mod gate;
pub mod strips;

ghost use Rattle.std.specs.Prelude.{◌≡◌};
ghost use Rattle.rules.specs.Refusal.{refusal_number, refusal_place};
ghost use Rattle.loader.specs.Judge.{packed, judged_from};

use rules::refusal::Refusal;

pub fn judge(m: &[u8], s: &[u8], now: u32) -> u64
    ensures { result ≡ packed (judged_from m.now s.now now) }
{
    loader::pack(loader::judged(m, s, now).map_err(in_numbers))
}

// A refusal as C gets it: its number with its place.
fn in_numbers(refusal: Refusal) -> (u32, u32)
    ensures { result ≡ (refusal_number refusal, refusal_place refusal) }
{
    (refusal.number(), refusal.place())
}
