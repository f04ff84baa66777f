// The grants after a tick, changed where they stand. Most ticks name few carriers, so most words need no look.
#![tactic(auto)]

ghost use Rattle.std.specs.Prelude.{◌≡◌, ◌<◌, length};
ghost use Rattle.rules.specs.Ranges.{sheets};
ghost use Rattle.grants.specs.Words.{Sized, closed_words};
ghost use Rattle.grants.specs.Gain.{lost_words, gained_word, changed_sheets, gained_words, gained_in};

// Every sheet's word without the models that have an SL.
#[tactic(auto, using(crate::proofs::Apart::lost_none))]
fn lose(words: &mut [u64; 256], sl: u64)
    requires { Sized sheets words.old }
    ensures { words.new ≡ lost_words words.old sl }
{
    if sl == 0 {
        return;
    }
    for word in words.iter_mut() {
        *word &= !sl;
    }
}

// A sheet's word after the rest of the tick: whether it has an SR, an add, is in by LA; the models in after the tick, and those with an LJ.
#[tactic(auto, unfolding(crate::specs::Gain::gained_word))]
fn gained(word: u64, sr: bool, add: bool, liberal: bool, members: u64, lj: u64) -> u64
    ensures { result ≡ gained_word word sr add liberal members lj }
{
    bits::choose(sr, 0, word) | bits::choose(add, members, 0) | bits::choose(liberal, lj, 0)
}

// The sheets of one word of sheets whose grants may change: with an SR or an add, and where a model has an LJ, in by LA.
fn changed(sr: u64, adds: u64, liberal: u64, lj: u64) -> u64
    ensures { result ≡ changed_sheets sr adds liberal lj }
{
    sr | adds | bits::choose(lj == 0, 0, liberal)
}

// The words of the sheets of word k after the rest of the tick; the sheets that don't change are passed over.
fn gain_word(
    words: &mut [u64; 256],
    k: usize,
    removed: u64,
    added: u64,
    inside: u64,
    members: u64,
    lj: u64,
)
    requires { (length words.old ≡ sheets) × (k < 4) }
    ensures { words.new ≡ gained_in k words.old removed added inside members lj }
{
    let change = changed(removed, added, inside, lj);
    // kept: a loop by hand, since the place goes on to the next sheet that changes; an iterator of our own would be longer than the loop.
    let mut place = bits::next_bit(change, 0);
    while place < bits::WIDTH {
        let s = k * 64 + place as usize;
        let sr_here = bits::has_bit(removed, place);
        let add_here = bits::has_bit(added, place);
        let in_here = bits::has_bit(inside, place);
        words[s] = gained(words[s], sr_here, add_here, in_here, members, lj);
        place = bits::next_bit(change, place + 1);
    }
}

// Every sheet's word after the rest of the tick, one word of sheets after the other.
fn gain(
    words: &mut [u64; 256],
    sr: [u64; 4],
    adds: [u64; 4],
    liberal: [u64; 4],
    members: u64,
    lj: u64,
)
    requires { length words.old ≡ sheets }
    ensures { words.new ≡ gained_words words.old sr adds liberal members lj }
{
    // kept: `gain_word` finds the sheets of word k by k too, and a zip of three arrays beside it is no plainer.
    for k in 0..4 {
        gain_word(words, k, sr[k], adds[k], liberal[k], members, lj);
    }
}

// Every sheet's word after the tick, where it stands.
// kept: the tick's sets one by one and no struct of them, since `closed_words` takes them so, and they come from a group's own fields and from what a close settles.
#[tactic(auto, using(crate::proofs::Apart::closed_apart))]
pub fn close_words(
    words: &mut [u64; 256],
    sr: [u64; 4],
    adds: [u64; 4],
    liberal: [u64; 4],
    members: u64,
    sl: u64,
    lj: u64,
)
    requires { Sized sheets words.old }
    ensures { words.new ≡ closed_words words.old sr adds liberal members sl lj }
{
    lose(words, sl);
    gain(words, sr, adds, liberal, members, lj);
}
