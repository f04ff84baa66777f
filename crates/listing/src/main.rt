// Lists who may read what in a book: every model and sheet that the judge grants at the book's last tick, with the moment.
#![tactic(auto)]

use formula::{Moment, Verdict};
use lines::page::Page;
use report::strips::{Strips, strip};
use report::{Book, read_book};
use std::io::Read;
use strip::Side;

// The line of a granted pair.
// kept: part by part: as a `Display` it has the listing of a full book above its aim in most runs (docs/BENCHMARKS.md). Kept apart from the pass over all pairs, most of which print none and which takes a tenth longer with it inside.
#[inline(never)]
fn granted<P: Print>(page: &mut Page<P>, model: u32, sheet: u32, moment: Moment) {
    page.number(model);
    page.bytes(b" ");
    page.number(sheet);
    match moment {
        Moment::Add(tick) => {
            page.bytes(b" add ");
            page.number(tick);
        }
        Moment::Join(tick) => {
            page.bytes(b" join ");
            page.number(tick);
        }
    }
    page.end_counted();
}

// The listing of a book that was read, by model, then sheet; a pair that isn't granted has no line.
fn listed<P: Print>(page: &mut Page<P>, book: Book) {
    let sheets = Strips::gathered(book.words, Side::Sheet, rules::SHEETS);
    let mut list = [0; rules::EVENTS];
    page.line(book);
    for model in 0..rules::MODELS {
        let events = strip(book.words, Side::Model, model, &mut list);
        for sheet in 0..rules::SHEETS {
            let verdict = judge::judge(events, sheets.of(sheet), book.ticks);
            let Ok(Verdict::Granted(moment)) = verdict else {
                continue;
            };
            granted(page, model, sheet, moment);
        }
    }
    page.total("granted");
}

// The listing of the book that the input has, or its refusal.
fn listing<P: Print, R: Read>(page: &mut Page<P>, reader: &mut R) {
    let mut list = [0; rules::EVENTS];
    match read_book(reader, &mut list) {
        Ok(book) => listed(page, book),
        Err(refused) => page.line(refused),
    }
}

fn main(rt: HostRuntime) {
    let mut page = Page::new(&rt, report::LINE);
    listing(&mut page, &mut rt.stdin());
    page.flush();
}
