// When could a model read a sheet? Lists the spans of a book, of every model and sheet or of those that the arguments name.
#![tactic(auto)]

mod ask;

use ask::Asked;
use lines::page::Page;
use report::strips::{Strips, strip};
use report::{Book, read_book};
use std::io::Read;
use strip::Side;
use text::Number;

// The two strips of a pair have no more words than a book has records, and that many numbers are always enough for their spans.
const LIST: usize = rules::EVENTS;

// The lines of one pair: the first `count` spans of the list.
fn lines<P: Print>(page: &mut Page<P>, model: u32, sheet: u32, list: &[u32], count: u32) {
    let (model, sheet) = (Number(model.into()), Number(sheet.into()));
    let (spans, _) = list.as_chunks::<2>();
    for [first, last] in spans.iter().take(count as usize) {
        let (first, last) = (Number(u64::from(*first)), Number(u64::from(*last)));
        page.counted(format_args!("{model} {sheet} {first} {last}"));
    }
}

// The spans of a book that was read, by model, then sheet.
fn listed<P: Print>(page: &mut Page<P>, asked: Asked, book: Book) {
    let sheets = Strips::gathered(book.words, Side::Sheet, rules::SHEETS);
    let mut room = [0; rules::EVENTS];
    let mut list = [0; LIST];
    page.line(book);
    for model in asked.models {
        let events = strip(book.words, Side::Model, model, &mut room);
        for sheet in asked.sheets.start..asked.sheets.end {
            let told = span::spans(events, sheets.of(sheet), book.ticks, &mut list);
            // refused where a strip is not good, which no strip of a book that was read is
            if let Ok(count) = told {
                lines(page, model, sheet, &list, count);
            }
        }
    }
    page.total("spans");
}

// The spans of the book that the input has, or its refusal.
fn spans<P: Print, R: Read>(page: &mut Page<P>, reader: &mut R, asked: Asked) {
    let mut list = [0; rules::EVENTS];
    match read_book(reader, &mut list) {
        Ok(book) => listed(page, asked, book),
        Err(refused) => page.line(refused),
    }
}

fn usage<P: Print>(rt: &P) {
    let _ = rt.println(
        "usage: spans [MODEL [SHEET]] < BOOK, with MODEL 0 to 63 and SHEET 0 to 255",
    );
}

fn main(rt: HostRuntime) {
    let Some(asked) = ask::arguments(&rt) else {
        usage(&rt);
        return;
    };
    let mut page = Page::new(&rt, report::LINE);
    spans(&mut page, &mut rt.stdin(), asked);
    page.flush();
}
