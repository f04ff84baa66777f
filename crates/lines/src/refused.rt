// The line of a refusal.
use rules::refusal::Refusal;
use std::fmt;
use text::Number;

// A refusal in numbers, as C gets it: its own, and the place that stands beside it.
// kept: in numbers, since a book that is read, a close and a fresh group are answered so (the C interface).
#[derive(Clone, Copy)]
pub struct Refused {
    number: u32,
    place: u32,
}

// Of an answer in numbers: accepted where the number is 0.
pub fn accepted(number: u32, place: u32) -> Result<(), Refused> {
    if number == 0 {
        return Ok(());
    }
    Err(Refused { number, place })
}

impl Refused {
    // Whether the place is the record or the sheet that the refusal is about.
    fn names_place(self) -> bool {
        [
            Refusal::BadRecord(0),
            Refusal::NotRising(0),
            Refusal::IllFormed(0),
            Refusal::NotInStore(0),
            Refusal::BadEntry(0),
        ]
        .iter()
        .any(|refusal| refusal.number() == self.number)
    }
}

impl From<Refusal> for Refused {
    fn from(refusal: Refusal) -> Self {
        Refused {
            number: refusal.number(),
            place: refusal.place(),
        }
    }
}

// "refused 21", or "refused 25 at 1" where there is a place.
impl fmt::Display for Refused {
    fn fmt<W: fmt::Write>(&self, f: &mut fmt::Formatter<W>) -> fmt::Result {
        let number = Number(self.number.into());
        if self.names_place() {
            let place = Number(self.place.into());
            write!(f, "refused {number} at {place}")
        } else {
            write!(f, "refused {number}")
        }
    }
}
