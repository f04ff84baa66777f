// What the programs that report on a book share: the book from standard input, the strips of its carriers, and the lines that their reports share.
#![tactic(auto)]

pub mod strips;

use lines::read_full;
use lines::refused::{Refused, accepted};
use std::fmt;
use std::io::Read;
use text::Number;

// One byte more than the longest book, so that a longer input is refused as too long.
const INPUT: usize = rules::LONGEST_BOOK + 1;

// No line of a report is longer.
pub const LINE: usize = 64;

// A book that was read: its group, its ticks and its words.
#[derive(Clone, Copy)]
pub struct Book<'a> {
    pub number: u32,
    pub ticks: u32,
    pub words: &'a [u32],
}

// A report's first line.
impl fmt::Display for Book<'_> {
    fn fmt<W: fmt::Write>(&self, f: &mut fmt::Formatter<W>) -> fmt::Result {
        let number = Number(self.number.into());
        let ticks = Number(self.ticks.into());
        let records = Number(self.words.len() as u64);
        write!(f, "group {number} ticks {ticks} records {records}")
    }
}

// Reads a book to the end of the input, and its words to the front of the list.
pub fn read_book<'a, R: Read>(
    reader: &mut R,
    list: &'a mut [u32; rules::EVENTS],
) -> Result<Book<'a>, Refused> {
    let mut input = [0u8; INPUT];
    let bytes = read_full(reader, &mut input);
    let read = book::read(bytes, list);
    accepted(read.code, read.place)?;
    let records = kept::records(bytes.len());
    Ok(Book {
        number: read.group.number,
        ticks: read.group.closed,
        words: list.get(..records).unwrap_or(&[]),
    })
}
