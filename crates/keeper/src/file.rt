// Files by name. A name that is no UTF-8 names no file.
use lines::read_full;
use std::io::{ErrorKind, Read};
use std::rt::Files;
use std::{fs, io, str};

fn text(name: &[u8]) -> io::Result<&str> {
    Ok(str::from_utf8(name).map_err(|_| ErrorKind::InvalidInput)?)
}

// Reads a file to the front of the bytes, as far as they go, and answers what came.
pub fn read<'b, F: Files>(rt: &F, name: &[u8], bytes: &'b mut [u8]) -> io::Result<&'b [u8]> {
    let mut file = fs::open(rt, text(name)?)?;
    let came = read_full(&mut file, bytes);
    // a read that failed looks like the file's end, but one more fails again: a folder's, a broken disk's
    file.read(&mut [0; 1])?;
    Ok(came)
}

// Makes or replaces a file with these bytes.
pub fn write<F: Files>(rt: &F, name: &[u8], bytes: &[u8]) -> io::Result<()> {
    fs::write(rt, text(name)?, bytes)
}
