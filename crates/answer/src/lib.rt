// The keeper's answers, each a line.
#![tactic(auto)]

use ask::reason::Reason;
use lines::page::Page;
use lines::refused::Refused;
use rules::refusal::Refusal;
use std::fmt;
use text::Number;

// No answer is longer.
pub const ANSWER: usize = 2048;

// What a command is answered where nothing fails.
#[derive(Clone, Copy)]
pub enum Answer {
    Help,
    Ok,
    Closed {
        ticks: u32,
    },
    Fresh {
        group: u32,
    },
    Granted,
    Denied,
    Models {
        count: u32,
    },
    Loaded {
        group: u32,
        ticks: u32,
        records: usize,
    },
    Store {
        length: usize,
    },
    Saved {
        length: usize,
    },
    Delivered {
        length: u32,
    },
}

impl fmt::Display for Answer {
    fn fmt<W: fmt::Write>(&self, f: &mut fmt::Formatter<W>) -> fmt::Result {
        match *self {
            Answer::Help => f.write_str(HELP),
            Answer::Ok => f.write_str("ok"),
            Answer::Closed { ticks } => write!(f, "closed {}", Number(ticks.into())),
            Answer::Fresh { group } => write!(f, "fresh {}", Number(group.into())),
            Answer::Granted => f.write_str("granted"),
            Answer::Denied => f.write_str("denied"),
            Answer::Models { count } => write!(f, "models {}", Number(count.into())),
            Answer::Loaded {
                group,
                ticks,
                records,
            } => {
                let (group, ticks) = (Number(group.into()), Number(ticks.into()));
                let records = Number(records as u64);
                write!(f, "group {group} ticks {ticks} records {records}")
            }
            Answer::Store { length } => write!(f, "store {}", Number(length as u64)),
            Answer::Saved { length } => write!(f, "saved {}", Number(length as u64)),
            Answer::Delivered { length } => write!(f, "delivered {}", Number(length.into())),
        }
    }
}

// Why a command is not done: its line can't be taken, it is refused, or its file can't be opened, read or written.
#[derive(Clone, Copy)]
pub enum Failed<'a> {
    What(Reason),
    Refused(Refused),
    CannotOpen(&'a [u8]),
}

// A call's own refusal.
impl From<Refusal> for Failed<'_> {
    fn from(refusal: Refusal) -> Self {
        Failed::Refused(refusal.into())
    }
}

// An answer in numbers that refuses.
impl From<Refused> for Failed<'_> {
    fn from(refused: Refused) -> Self {
        Failed::Refused(refused)
    }
}

// The line that a command is answered.
pub fn put<P: Print>(page: &mut Page<P>, answer: Result<Answer, Failed<'_>>) {
    match answer {
        Ok(answer) => page.line(answer),
        Err(Failed::What(reason)) => page.line(format_args!("what? {reason}")),
        Err(Failed::Refused(refused)) => page.line(refused),
        // a file's name need not be text
        Err(Failed::CannotOpen(file)) => {
            page.bytes(b"can't open ");
            page.bytes(file);
            page.line("");
        }
    }
}

// What is printed where the program is started with an argument.
pub fn usage<P: Print>(page: &mut Page<P>) {
    page.line("keeper: one command a line on standard input, one answer a line");
    page.line(Answer::Help);
}

const HELP: &str = "fresh G             start again with a fresh group G (0..15)
SJ N   LJ N         model N (0..63) joins: strict, liberal
SL N   LL N         model N leaves: strict, liberal
SA N   LA N         sheet N (0..255) is added: strict, liberal
SR N   LR N         sheet N is removed: strict, liberal
request K N         the same by kind: 0 SJ 1 LJ 2 SL 3 LL 4 SA 5 LA 6 SR 7 LR
close               close the open tick, so that its requests count
read M S            may model M read sheet S, as of the last close?
models S            how many models may read sheet S?
load FILE           take the group from the book in FILE
save FILE           write the book of all closed ticks to FILE
store FILE          take the sheet store from FILE
deliver M CAP FILE  write M's sheets to FILE, at most CAP (0..1114112) bytes
help                these lines";
