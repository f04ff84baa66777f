// What the programs share: their arguments, bytes until the input ends, a page of lines, and the line of a refusal.
#![tactic(auto)]

pub mod page;
pub mod refused;

ghost use Rattle.std.specs.Prelude.{◌≤◌, length};

use std::env::{Env, FillError};
use std::io::Read;

// Reads until the buffer is full, the input ends or a read fails, and answers the bytes that came.
// kept: no heap is a rule of the project: of the library's methods only `read_to_end`, into a `Vec`, keeps what came before a failed read.
pub fn read_full<'a, R: Read>(reader: &mut R, buffer: &'a mut [u8]) -> &'a [u8] {
    let done = fill(reader, buffer);
    &buffer[..done]
}

// How many bytes stand at the buffer's front then.
fn fill<R: Read>(reader: &mut R, buffer: &mut [u8]) -> usize
    ensures { result ≤ length buffer.new }
{
    let mut done = 0;
    while done < buffer.len() {
        let Ok(came @ 1..) = reader.read(&mut buffer[done..]) else {
            break;
        };
        done += came;
    }
    done
}

// Whether the program was started with so many arguments or more.
pub fn has_arguments<E: Env>(rt: &E, count: usize) -> bool {
    let mut word = [0u8; 1];
    !matches!(rt.arg(count, &mut word), Err(FillError::NotPresent))
}
