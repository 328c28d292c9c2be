// Lines of a stream of any bytes.
use std::io;
use std::io::BufRead;

// Reads one more line into the buffer, with its line feed if it has one, and tells whether there was one.
pub fn take_line<R: BufRead>(input: &mut R, line: &mut Vec<u8>) -> io::Result<bool> {
    line.clear();
    let read = input.read_until(b'\n', line)?;
    Ok(read > 0)
}

// A line without its line feed.
pub fn content(line: &[u8]) -> &[u8] {
    match line {
        [front @ .., b'\n'] => front,
        _ => line,
    }
}
