// The spans of a grant as they are found, tick by tick: which one is open, how many have ended, and the pairs of those.
#![tactic(auto)]

ghost use Rattle.std.specs.Prelude.{◌≡◌, cond, ◌≤◌, eqb};
ghost use Rattle.spanning.specs.Steps.{most, pair_at, ended, ended_list, turned, turned_list};

// The first tick of the span that is open, 0 where none is, and how many have ended.
// kept: `turned` and `ended` (specs/Steps.antt), which `turn` and `end` promise, have 0 for none.
#[derive(Clone, Copy)]
pub struct Spanning {
    pub first: u32,
    pub count: usize,
}

// Writes a pair at its place, where the list has room for it.
fn write(list: &mut [u32], place: usize, first: u32, last: u32)
    ensures { list.new ≡ pair_at list.old place first last }
{
    if place < list.len() / 2 {
        list[2 * place] = first;
        list[2 * place + 1] = last;
    }
}

// Ends the open span, where one is open.
pub fn end(list: &mut [u32], was: Spanning, last: u32) -> Spanning
    requires { was.count ≤ most }
    ensures { (result ≡ ended was) × (list.new ≡ ended_list list.old was last) }
{
    if was.first == 0 {
        return was;
    }
    write(list, was.count, was.first, last);
    Spanning {
        first: 0,
        count: was.count + 1,
    }
}

// Where the grant holds at a tick, the open span goes on, or one begins.
fn opened(since: u32, tick: u32) -> u32
    ensures { result ≡ cond (eqb since 0) tick since }
{
    if since == 0 {
        return tick;
    }
    since
}

// A tick with events: the grant holds after it, or not.
pub fn turn(list: &mut [u32], was: Spanning, tick: u32, holds: bool) -> Spanning
    requires { (1 ≤ tick) × (was.count ≤ most) }
    ensures { (result ≡ turned was tick holds) × (list.new ≡ turned_list list.old was tick holds) }
{
    if holds {
        return Spanning {
            first: opened(was.first, tick),
            count: was.count,
        };
    }
    end(list, was, tick - 1)
}
