// The exports of the event book: the calls of `ferrulebee::book_calls` under their names in C.
ghost use Rattle.std.specs.Prelude.{◌≡◌, length};
ghost use Rattle.book.specs.Read.{book_read, list_read};
ghost use Rattle.book.specs.Write.{book_written, buffer_written};
ghost use Rattle.crossing.specs.Part.{records_part};

use book::{BookRead, BookWritten};
use crossing::part::Part;

#[unsafe(no_mangle)]
pub extern "C" fn ferrulebee_book_read(bytes: &[u8], list: &mut [u32]) -> BookRead
    ensures { (result ≡ book_read bytes.now (length list.old)) × (list.new ≡ list_read bytes.now list.old) }
{
    ferrulebee::book_calls::ferrulebee_book_read(bytes, list)
}

#[unsafe(no_mangle)]
pub extern "C" fn ferrulebee_book_write(
    ticks: u32,
    number: u32,
    words: &[u32],
    buffer: &mut [u8],
) -> BookWritten
    ensures { (result ≡ book_written ticks number words.now (length buffer.old)) × (buffer.new ≡ buffer_written ticks number words.now buffer.old) }
{
    ferrulebee::book_calls::ferrulebee_book_write(ticks, number, words, buffer)
}

#[unsafe(no_mangle)]
pub extern "C" fn ferrulebee_tick_part(words: &[u32], tick: u32) -> Part
    ensures { result ≡ records_part words.now tick }
{
    ferrulebee::book_calls::ferrulebee_tick_part(words, tick)
}
