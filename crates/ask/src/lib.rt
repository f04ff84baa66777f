// What the next line of standard input asks for: a command with its numbers, or the reason why it is none.
#![tactic(auto)]

ghost use Rattle.std.specs.Prelude.{◌≡◌, ◌≤◌, length, OnOk};

pub mod input;
pub mod reason;
mod word;

use reason::Reason;
use rules::kind::Kind;
use std::cmp::Ordering;
use word::{decimal, file};

// The longest line.
const LINE: usize = 255;

// The words of the longest command, and one more, which shows that there are too many.
const WORDS: usize = 5;

// The longest delivery buffer.
pub const BUFFER: usize = 1114112;

// A command, with the numbers and the file's name that it has. A request by its letters has its kind as a number, too.
#[derive(Clone, Copy)]
pub enum Asked<'a> {
    Help,
    Read {
        model: u32,
        sheet: u32,
    },
    Models {
        sheet: u32,
    },
    Request {
        kind: u32,
        number: u32,
    },
    Close,
    Fresh {
        group: u32,
    },
    Load {
        file: &'a [u8],
    },
    Save {
        file: &'a [u8],
    },
    Store {
        file: &'a [u8],
    },
    Deliver {
        model: u32,
        room: usize,
        file: &'a [u8],
    },
}

// Whether the words behind a command's name are as many as it takes.
fn exactly(words: &[&[u8]], takes: usize) -> Result<(), Reason>
    ensures { OnOk result (length words.now ≡ takes) }
{
    match words.len().cmp(&takes) {
        Ordering::Less => Err(Reason::Missing),
        Ordering::Equal => Ok(()),
        Ordering::Greater => Err(Reason::Extra),
    }
}

fn request<'a>(kind: Kind, words: &[&'a [u8]]) -> Result<Asked<'a>, Reason> {
    exactly(words, 1)?;
    Ok(Asked::Request {
        kind: kind.number(),
        number: decimal(words[0])?,
    })
}

// The length of a delivery's buffer.
fn room(word: &[u8]) -> Result<usize, Reason> {
    let room = decimal(word)? as usize;
    if room > BUFFER {
        return Err(Reason::LargeBuffer);
    }
    Ok(room)
}

// The words at the front of a line, and how many they are.
// kept: an array with a count, since the keeper takes no heap.
fn words(line: &[u8]) -> ([&[u8]; WORDS], usize)
    ensures { result.1 ≤ 5 }
{
    let mut words = [&line[..0]; WORDS];
    let mut count = 0;
    let found = line
        .split(|byte| *byte == b' ')
        .filter(|word| !word.is_empty());
    for (k, word) in found.take(WORDS).enumerate() {
        words[k] = word;
        count = k + 1;
    }
    (words, count)
}

// What a line asks for: nothing, where it has no words.
pub fn hear(line: &[u8]) -> Option<Result<Asked<'_>, Reason>> {
    if line.len() > LINE {
        return Some(Err(Reason::LongLine));
    }
    let (words, count) = words(line);
    let (name, words) = words[..count].split_first()?;
    Some(command(name, words))
}

// What a command asks for with the words behind its name.
fn command<'a>(name: &[u8], words: &[&'a [u8]]) -> Result<Asked<'a>, Reason> {
    match name {
        b"SJ" => request(Kind::SJ, words),
        b"LJ" => request(Kind::LJ, words),
        b"SL" => request(Kind::SL, words),
        b"LL" => request(Kind::LL, words),
        b"SA" => request(Kind::SA, words),
        b"LA" => request(Kind::LA, words),
        b"SR" => request(Kind::SR, words),
        b"LR" => request(Kind::LR, words),
        b"request" => {
            exactly(words, 2)?;
            Ok(Asked::Request {
                kind: decimal(words[0])?,
                number: decimal(words[1])?,
            })
        }
        b"close" => {
            exactly(words, 0)?;
            Ok(Asked::Close)
        }
        b"read" => {
            exactly(words, 2)?;
            Ok(Asked::Read {
                model: decimal(words[0])?,
                sheet: decimal(words[1])?,
            })
        }
        b"models" => {
            exactly(words, 1)?;
            Ok(Asked::Models {
                sheet: decimal(words[0])?,
            })
        }
        b"fresh" => {
            exactly(words, 1)?;
            Ok(Asked::Fresh {
                group: decimal(words[0])?,
            })
        }
        b"load" => {
            exactly(words, 1)?;
            Ok(Asked::Load {
                file: file(words[0])?,
            })
        }
        b"save" => {
            exactly(words, 1)?;
            Ok(Asked::Save {
                file: file(words[0])?,
            })
        }
        b"store" => {
            exactly(words, 1)?;
            Ok(Asked::Store {
                file: file(words[0])?,
            })
        }
        b"deliver" => {
            exactly(words, 3)?;
            // a number that is none comes before a buffer that is too large
            Ok(Asked::Deliver {
                model: decimal(words[0])?,
                room: room(words[1])?,
                file: file(words[2])?,
            })
        }
        b"help" => {
            exactly(words, 0)?;
            Ok(Asked::Help)
        }
        _ => Err(Reason::Unknown),
    }
}
