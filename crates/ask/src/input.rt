// Standard input, a line at a time, in memory of a fixed size.
// kept: a buffer of its own: the library's `BufReader` takes the heap, which the keeper doesn't.
ghost use Rattle.std.specs.Prelude.{◌+◌, ◌≤◌, length, IfSome};

use std::io::Read;

// The bytes that are read at most at a time.
const ROOM: usize = 65536;

// The bytes at hand, from `at` to `end` of the buffer, and whether they are the last.
#[derive(Clone, Copy)]
pub struct Input {
    buffer: [u8; ROOM],
    at: usize,
    end: usize,
    over: bool,
    ghost in_order: { at ≤ end },
    ghost at_hand: { end ≤ length buffer },
}

impl Input {
    // The input before any of it is read.
    pub fn new() -> Input {
        Input {
            buffer: [0; ROOM],
            at: 0,
            end: 0,
            over: false,
        }
    }

    // The next line, where all of it is at hand; what is left when the input is over is the last one.
    pub fn line(&mut self) -> Option<&[u8]> {
        let from = self.at;
        let to = from + self.length()?;
        self.at = self.end.min(to + 1);
        Some(&self.buffer[from..to])
    }

    // That line's length.
    fn length(&self) -> Option<usize>
        ensures { IfSome result (λ n. self.now.at + n ≤ self.now.end) }
    {
        let hand = &self.buffer[self.at..self.end];
        match hand.iter().position(|byte| *byte == b'\n') {
            None if self.over && !hand.is_empty() => Some(hand.len()),
            found => found,
        }
    }

    // Waits for more of the line at hand, of which only as much is kept as shows that it is too long; false at the end of the input.
    pub fn more<R: Read>(&mut self, reader: &mut R) -> bool {
        if self.over {
            return false;
        }
        let had = (self.end - self.at).min(super::LINE + 1);
        self.buffer.copy_within(self.at..self.at + had, 0);
        // a read that fails counts as the end
        let came = reader.read(&mut self.buffer[had..]).unwrap_or(0);
        self.at = 0;
        self.end = had + came;
        self.over = came == 0;
        true
    }
}
