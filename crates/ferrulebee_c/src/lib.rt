// What C links: each export of the gate under its name in C, the call of `ferrulebee` with the same promise. Here the judge.
#![tactic(auto)]

mod book_calls;
mod deliver;
mod gate;
mod strips;

ghost use Rattle.std.specs.Prelude.{◌≡◌};
ghost use Rattle.loader.specs.Judge.{packed, judged_from};

#[unsafe(no_mangle)]
pub extern "C" fn judge(m: &[u8], s: &[u8], now: u32) -> u64
    ensures { result ≡ packed (judged_from m.now s.now now) }
{
    ferrulebee::judge(m, s, now)
}
