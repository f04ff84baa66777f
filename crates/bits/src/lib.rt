// Bits of words.
#![tactic(auto)]

ghost use Rattle.std.specs.Prelude.{◌≡◌, true, cond, ◌<◌};
ghost use Rattle.base.specs.HowMany.{how_many};
ghost use Rattle.bits.specs.Bit.{width, bit, next_bit, with_bit, after_word};

// How many bits a word has.
pub const WIDTH: u32 = u64::BITS;

#[tactic(auto, using(crate::proofs::Bit::bit_test))]
pub fn has_bit(word: u64, place: u32) -> bool
    requires { place < width }
    ensures { result ≡ bit word place }
{
    (word >> place) & 1 == 1
}

pub fn with_bit(word: u64, place: u32) -> u64
    requires { place < width }
    ensures { result ≡ with_bit word place }
{
    word | 1 << place
}

// The word with the bit, where it is to have it.
// kept: called by nobody now, since `request::mark` has a case for each kind; docs/PROMISES.md promises it.
pub fn mark_word(word: u64, when: bool, place: u32) -> u64
    requires { when ≡ true → place < width }
    ensures { result ≡ cond when (with_bit word place) word }
{
    if when { with_bit(word, place) } else { word }
}

pub fn after_word(was: u64, gone: u64, come: u64) -> u64
    ensures { result ≡ after_word was gone come }
{
    was & !gone | come
}

// The first place from `from` on whose bit is set; the width where there is none.
pub fn next_bit(word: u64, from: u32) -> u32
    ensures { result ≡ next_bit word from }
{
    if from >= WIDTH {
        return WIDTH;
    }
    let zeros = (word >> from).trailing_zeros();
    if zeros >= WIDTH - from {
        return WIDTH;
    }
    from + zeros
}

// A choice of words without a branch where it is used.
pub fn choose(when: bool, a: u64, b: u64) -> u64
    ensures { result ≡ cond when a b }
{
    if when { a } else { b }
}

// How many bits of a word are set.
#[tactic(auto, using(crate::proofs::Ones::ones_how_many))]
pub fn count(word: u64) -> u32
    ensures { result ≡ how_many (bit word) width }
{
    word.count_ones()
}
