// Sets of numbers below 256, kept as four words.
// kept: functions on arrays and no struct with methods, since a group's fields are such arrays in C (include/ferrulebee.h) and lists in its definitions.
#![tactic(auto)]

ghost use Rattle.std.specs.Prelude.{◌≡◌, true, cond, ◌<◌};
ghost use Rattle.sets.specs.Set.{has, with, either, after};

use bits::WIDTH;
use std::array;

#[tactic(auto, unfolding(crate::specs::Set::has))]
pub fn has(words: [u64; 4], number: u32) -> bool
    requires { number < 256 }
    ensures { result ≡ has words number }
{
    let k = (number / WIDTH) as usize;
    bits::has_bit(words[k], number % WIDTH)
}

#[tactic(auto, unfolding(crate::specs::Set::with))]
pub fn with(mut words: [u64; 4], number: u32) -> [u64; 4]
    requires { number < 256 }
    ensures { result ≡ with words number }
{
    let k = (number / WIDTH) as usize;
    words[k] = bits::with_bit(words[k], number % WIDTH);
    words
}

// The set with the number, where it is to have it.
// kept: called by nobody now, as `bits::mark_word`; docs/PROMISES.md promises it.
pub fn mark_set(words: [u64; 4], when: bool, number: u32) -> [u64; 4]
    requires { when ≡ true → number < 256 }
    ensures { result ≡ cond when (with words number) words }
{
    if when { with(words, number) } else { words }
}

#[tactic(auto, unfolding(crate::specs::Set::either, base::specs::Table::table))]
pub fn either(a: [u64; 4], b: [u64; 4]) -> [u64; 4]
    ensures { result ≡ either 4 a b }
{
    array::from_fn(|k| a[k] | b[k])
}

#[tactic(auto, unfolding(crate::specs::Set::after, base::specs::Table::table))]
pub fn after(was: [u64; 4], gone: [u64; 4], come: [u64; 4]) -> [u64; 4]
    ensures { result ≡ after 4 was gone come }
{
    array::from_fn(|k| bits::after_word(was[k], gone[k], come[k]))
}
