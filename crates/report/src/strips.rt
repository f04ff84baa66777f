// The strips of a book's carriers: of one at a time, or of all sheets.
use strip::Side;

// One place more than there are sheets, of which there are the most: where each strip ends and the next begins.
const ENDS: usize = rules::SHEETS as usize + 1;

// Strips that are gathered once: one behind the other, with their ends.
// kept: a list with ends beside it: slices of a list can't stand beside it in one struct, and there is no heap.
#[derive(Drop)]
pub struct Strips {
    list: [u32; rules::EVENTS],
    ends: [usize; ENDS],
}

// A carrier's strip, gathered to the front of the list.
pub fn strip<'a>(
    words: &[u32],
    side: Side,
    number: u32,
    list: &'a mut [u32; rules::EVENTS],
) -> &'a [u32] {
    let end = gather::gather(words, side, number, list, 0);
    list.get(..end).unwrap_or(&[])
}

impl Strips {
    // The strips of a side's carriers, of which there are so many.
    pub fn gathered(words: &[u32], side: Side, carriers: u32) -> Strips {
        let mut strips = Strips {
            list: [0; rules::EVENTS],
            ends: [0; ENDS],
        };
        let mut at = 0;
        for (number, end) in (0..carriers).zip(&mut strips.ends[1..]) {
            at = gather::gather(words, side, number, &mut strips.list, at);
            *end = at;
        }
        strips
    }

    // A carrier's strip; a number that is no carrier's has an empty one.
    pub fn of(&self, number: u32) -> &[u32] {
        let n = number as usize;
        match self.ends.get(n..n + 2) {
            Some([from, to]) => self.list.get(*from..*to).unwrap_or(&[]),
            _ => &[],
        }
    }
}
