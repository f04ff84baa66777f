// What a word stands for: a number, or a file's name.
use super::reason::Reason;

// The longest file name.
const NAME: usize = 200;

// A word as a number: decimal digits, leading zeros allowed.
// kept: by hand: with `parse`, which takes a plus and tells no reason, a million commands take 94 ms for 82.
pub fn decimal(word: &[u8]) -> Result<u32, Reason> {
    let mut value: u64 = 0;
    for byte in word {
        if !byte.is_ascii_digit() {
            return Err(Reason::NotDecimal);
        }
        value = value
            .saturating_mul(10)
            .saturating_add(u64::from(*byte - b'0'));
    }
    u32::try_from(value).map_err(|_| Reason::TooLarge)
}

// A word as a file name.
pub fn file(word: &[u8]) -> Result<&[u8], Reason> {
    if word.len() > NAME {
        return Err(Reason::LongName);
    }
    Ok(word)
}
