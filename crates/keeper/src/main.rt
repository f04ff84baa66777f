// A console for the person who keeps a group: one command a line, one answer a line. What decides is a call of the proved library.
#![tactic(auto)]

mod file;
mod keep;

use answer::Failed;
use ask::input::Input;
use keep::Keeper;
use lines::has_arguments;
use lines::page::Page;
use std::io::Read;
use std::rt::Files;

// Answers every line up to the end of the input.
// A proved loop has to end, and nothing says that an input does: the loop has a number of turns that no run uses up.
// kept: a bound on the turns, which no run uses up, since a proved loop has to end.
fn converse<H: Files + Print, R: Read>(rt: &H, reader: &mut R, page: &mut Page<H>) {
    let mut input = Input::new();
    let mut keeper = Keeper::new();
    for _ in 0..u64::MAX {
        let Some(line) = input.line() else {
            // what was answered is written out before the program waits
            page.flush();
            if !input.more(reader) {
                return;
            }
            continue;
        };
        let Some(asked) = ask::hear(line) else {
            continue;
        };
        let answer = match asked {
            Ok(asked) => keeper.answer(rt, asked),
            Err(reason) => Err(Failed::What(reason)),
        };
        answer::put(page, answer);
    }
}

fn main(rt: HostRuntime) {
    let mut page = Page::new(&rt, answer::ANSWER);
    if has_arguments(&rt, 1) {
        answer::usage(&mut page);
    } else {
        converse(&rt, &mut rt.stdin(), &mut page);
    }
    page.flush();
}
