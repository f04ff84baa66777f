// Why a call refuses. Each reason has its fixed number, and some say which word, record or sheet they are about.
ghost use Rattle.std.specs.Prelude.{◌≡◌};
ghost use Rattle.rules.specs.Refusal.{refusal_number, refusal_place};

#[derive(Clone, Copy, Debug, PartialEq, Eq)]
pub enum Refusal {
    // a request, a close, a read, a list of groups, a fresh group
    BadKind,
    BadNumber,
    NoTickLeft,
    SecondEvent,
    AlreadyIn,
    NotIn,
    BadList,
    BadGroup,
    // the judge; a strip's first bad word
    LateNow,
    LongModel,
    LongSheet,
    BadModel(u32),
    BadSheet(u32),
    // the event book; a record
    BadLength,
    BadTotal,
    BadHeader,
    BadCount,
    BadRecord(u32),
    NotRising(u32),
    IllFormed(u32),
    ShortBuffer,
    ShortList,
    // a delivery; a sheet
    BadStore,
    NotInStore(u32),
    BadEntry(u32),
    DeliveryTooLong,
    // the spans
    TooManySpans,
}

impl Refusal {
    pub fn number(self) -> u32
        ensures { result ≡ refusal_number self }
    {
        match self {
            Refusal::BadKind => 1,
            Refusal::BadNumber => 2,
            Refusal::NoTickLeft => 3,
            Refusal::SecondEvent => 4,
            Refusal::AlreadyIn => 5,
            Refusal::NotIn => 6,
            Refusal::BadList => 7,
            Refusal::BadGroup => 9,
            Refusal::LateNow => 10,
            Refusal::LongModel => 11,
            Refusal::LongSheet => 12,
            Refusal::BadModel(_) => 13,
            Refusal::BadSheet(_) => 14,
            Refusal::BadLength => 20,
            Refusal::BadTotal => 21,
            Refusal::BadHeader => 22,
            Refusal::BadCount => 23,
            Refusal::BadRecord(_) => 24,
            Refusal::NotRising(_) => 25,
            Refusal::IllFormed(_) => 26,
            Refusal::ShortBuffer => 27,
            Refusal::ShortList => 28,
            Refusal::BadStore => 31,
            Refusal::NotInStore(_) => 32,
            Refusal::BadEntry(_) => 33,
            Refusal::DeliveryTooLong => 34,
            Refusal::TooManySpans => 40,
        }
    }

    // What it is about: the place of the word or of the record, or the sheet; 0 where it is about none.
    pub fn place(self) -> u32
        ensures { result ≡ refusal_place self }
    {
        match self {
            Refusal::BadModel(place)
            | Refusal::BadSheet(place)
            | Refusal::BadRecord(place)
            | Refusal::NotRising(place)
            | Refusal::IllFormed(place) => place,
            Refusal::NotInStore(sheet) | Refusal::BadEntry(sheet) => sheet,
            _ => 0,
        }
    }
}
