// One pass over both strips in tick order. Ticks without events cost nothing: they move nothing.
ghost use Rattle.std.specs.Prelude.{◌≡◌, ℕ, ◌≤◌, length};
ghost use Rattle.rules.specs.Ranges.{events};
ghost use Rattle.strip.specs.History.{history_of};
ghost use Rattle.strip.proofs.Places.{Rising, UpTo};
ghost use Rattle.standing.specs.Scan.{scan_to};

use standing::Seen;

pub fn scan(m: &[u32], s: &[u32]) -> Seen
    requires { Rising m.now × Rising s.now × (length m.now ≤ events) × (length s.now ≤ events) }
    ensures { (n : ℕ) → UpTo n m.now → UpTo n s.now → result ≡ scan_to (history_of m.now) (history_of s.now) n }
{
    let mut seen = stepping::START;
    let mut i: usize = 0;
    let mut j: usize = 0;
    // The heads stand in variables: a turn reads only the strip whose event it takes.
    let mut a = stepping::next_event(m, 0);
    let mut b = stepping::next_event(s, 0);
    // kept: places by hand are plainer: a turn takes the next event of one strip, of the other, or of both.
    while i + j < m.len() + s.len() {
        if a.tick < b.tick {
            seen = stepping::step(seen, a.tick, a.kind, rules::QUIET);
            i += 1;
            a = stepping::next_event(m, i);
        } else if b.tick < a.tick {
            seen = stepping::step(seen, b.tick, rules::QUIET, b.kind);
            j += 1;
            b = stepping::next_event(s, j);
        } else {
            seen = stepping::step(seen, a.tick, a.kind, b.kind);
            i += 1;
            j += 1;
            a = stepping::next_event(m, i);
            b = stepping::next_event(s, j);
        }
    }
    seen
}
