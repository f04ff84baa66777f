// The event book for C: reader, writer, and the records of one tick as a part of the lent list.
ghost use Rattle.std.specs.Prelude.{◌≡◌, length};
ghost use Rattle.book.specs.Read.{book_read, list_read};
ghost use Rattle.book.specs.Write.{book_written, buffer_written};
ghost use Rattle.crossing.specs.Part.{records_part};

use book::{BookRead, BookWritten};
use crossing::part::Part;

pub fn ferrulebee_book_read(bytes: &[u8], list: &mut [u32]) -> BookRead
    ensures { (result ≡ book_read bytes.now (length list.old)) × (list.new ≡ list_read bytes.now list.old) }
{
    book::read(bytes, list)
}

pub fn ferrulebee_book_write(
    ticks: u32,
    number: u32,
    words: &[u32],
    buffer: &mut [u8],
) -> BookWritten
    ensures { (result ≡ book_written ticks number words.now (length buffer.old)) × (buffer.new ≡ buffer_written ticks number words.now buffer.old) }
{
    book::write(ticks, number, words, buffer).into()
}

pub fn ferrulebee_tick_part(words: &[u32], tick: u32) -> Part
    ensures { result ≡ records_part words.now tick }
{
    crossing::part::records(words, tick)
}
