// A page of output: lines gather in memory of a fixed size, which is written out when it is nearly full, before a program waits, and at the end.
// kept: a buffer of its own: the library's `BufWriter` takes the heap, which the programs don't.
ghost use Rattle.std.specs.Prelude.{◌≡◌, ◌≤◌, length, ⊤};

use std::alloc::AllocError;
use std::fmt;
use std::fmt::{Display, Write};
use text::Number;

const OUT: usize = 65536;

#[derive(Drop)]
pub struct Page<'a, P> {
    to: &'a P,
    buffer: [u8; OUT],
    // the bytes of the longest line, for which there is always room
    longest: usize,
    // the bytes in the buffer
    at: usize,
    // the lines that are counted
    lines: u32,
    ghost within: { at ≤ length buffer },
}

// By hand, since a generic struct with a ghost field gets no derived `Clone`: a page stands for what is still to be written, and may be copied as it could when it was two numbers.
impl<P> Copy for Page<'_, P> {}

impl<P> Clone for Page<'_, P> {
    ghost is_clone = { λ x y. y ≡ x };

    ghost is_infallible = { λ _. ⊤ };

    fn clone(&self) -> Result<Self, AllocError> {
        Ok(*self)
    }
}

impl<P> Write for Page<'_, P> {
    fn write_str(&mut self, s: &str) -> fmt::Result {
        self.bytes(s.as_bytes());
        Ok(())
    }
}

impl<P> Page<'_, P> {
    // Adds bytes that need not be text; what doesn't fit is left out whole.
    pub fn bytes(&mut self, bytes: &[u8]) {
        let at = text::add(&mut self.buffer, self.at, bytes);
        self.at = at;
    }

    // Adds a number's digits where they stay, where a `Display` has them written elsewhere first; what doesn't fit is left out whole.
    pub fn number(&mut self, n: u32) {
        let at = text::add_decimal(&mut self.buffer, self.at, n.into());
        self.at = at;
    }
}

impl<'a, P: Print> Page<'a, P> {
    // A page whose lines are no longer than so many bytes.
    pub fn new(to: &'a P, longest: usize) -> Self {
        Page {
            to,
            buffer: [0; OUT],
            longest,
            at: 0,
            lines: 0,
        }
    }

    // Writes out what is in the buffer. A write that fails is passed over.
    pub fn flush(&mut self) {
        let _ = self.to.write_all(&self.buffer[..self.at]);
        self.at = 0;
    }

    // Adds a line that isn't counted.
    pub fn line<D: Display + Drop>(&mut self, line: D) {
        let _ = self.write_fmt(line);
        self.end();
    }

    // Adds a line that is counted.
    pub fn counted<D: Display + Drop>(&mut self, line: D) {
        let _ = self.write_fmt(line);
        self.end_counted();
    }

    // Ends a line whose parts were added, and counts it.
    pub fn end_counted(&mut self) {
        self.end();
        self.lines = self.lines.wrapping_add(1);
    }

    // Ends a line.
    fn end(&mut self) {
        self.bytes(b"\n");
        if self.at > OUT.saturating_sub(self.longest) {
            self.flush();
        }
    }

    // The last line counts those that are counted.
    pub fn total(&mut self, name: &str) {
        let lines = Number(self.lines.into());
        self.line(format_args!("{name} {lines}"));
    }
}
