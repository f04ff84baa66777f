// Why a line can't be taken.
use std::error::Error;
use std::fmt;

#[derive(Clone, Copy, Debug, PartialEq, Eq)]
pub enum Reason {
    LongLine,
    Unknown,
    Missing,
    Extra,
    NotDecimal,
    TooLarge,
    LargeBuffer,
    LongName,
}

impl fmt::Display for Reason {
    fn fmt<W: fmt::Write>(&self, f: &mut fmt::Formatter<W>) -> fmt::Result {
        f.write_str(match self {
            Reason::LongLine => "line too long",
            Reason::Unknown => "unknown command",
            Reason::Missing => "missing word",
            Reason::Extra => "extra word",
            Reason::NotDecimal => "not a number",
            Reason::TooLarge => "number too large",
            Reason::LargeBuffer => "buffer too large",
            Reason::LongName => "file name too long",
        })
    }
}

impl Error for Reason {}
