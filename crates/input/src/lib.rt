// What a program answers on the file in its input.

#![tactic(auto)]

ghost use Rattle.std.specs.Prelude.{◌≡◌, ◌≤◌, ℕ, List, [], length, take, IsTrue, MatchOption, OnOk};
ghost use Rattle.std.specs.Io.KnownBytes.{Appends, Consumes, IsAtEnd};
ghost use Rattle.input.specs.Answering.{Reads, Says};

use std::io;
use std::io::{Read, Write};

// The most bytes of an input that are read.
const MOST_READ: usize = 65_536;

// Reads until a read brings nothing or fails, or the buffer is full; how many bytes were read, which no method of the library tells where a read fails.
fn read_full<R: Read>(input: &mut R, buffer: &mut [u8]) -> usize
    ensures within { result ≤ length buffer.new }
    ensures bytes { Consumes (R.remaining input.old) (R.remaining input.new) (take result buffer.new) }
{
    let mut n = 0;
    while n < buffer.len() {
        match input.read(&mut buffer[n..]) {
            Ok(got) if 0 < got => n += got,
            _ => break,
        }
    }
    n
}

// Whether an input has come to its end. A read that fails says no.
fn at_end<R: Read>(input: &mut R) -> bool
    ensures { (bytes : List ℕ) × Consumes (R.remaining input.old) (R.remaining input.new) bytes × (IsTrue result → (bytes ≡ []) × IsAtEnd (R.remaining input.new)) }
{
    matches!(input.read(&mut [0u8; 1]), Ok(0))
}

// Reads a file into a buffer; how many bytes it has. None if the input could not be read to its end.
fn read_file<R: Read>(input: &mut R, buffer: &mut [u8]) -> Option<usize>
    ensures { MatchOption result ((bytes : List ℕ) × Consumes (R.remaining input.old) (R.remaining input.new) bytes) (λ n. (n ≤ length buffer.new) × Reads (length buffer.new) (R.remaining input.old) (R.remaining input.new) (take n buffer.new)) }
{
    let n = read_full(input, buffer);
    if n < buffer.len() && !at_end(input) {
        return None;
    }
    Some(n)
}

// Answers on the file in an input: the function puts its text into the lent buffer, and says how many bytes of it there are. An input that could not be read
// to its end gets the line `unreadable`, since what is missing could change the answer.
pub fn answer<R: Read, W: Write, F: Fn(&[u8], &mut [u8]) -> usize>(
    input: &mut R,
    output: &mut W,
    buffer: &mut [u8],
    by: F,
) -> io::Result<()>
    requires { F.IsAlwaysCallable by }
    ensures { (text : List ℕ) × Says F.Fn by (R.remaining input.old) (R.remaining input.new) buffer.old buffer.new text × OnOk result (Appends (W.contents output.old) (W.contents output.new) text) }
{
    let mut file = [0u8; MOST_READ];
    let Some(n) = read_file(input, &mut file) else {
        return output.write_all(b"unreadable\n");
    };
    let length = by(&file[..n], buffer);
    output.write_all(&buffer[..length.min(buffer.len())])
}

#[cfg(test)]
mod tests {
    use super::*;
    use std::io::{Cursor, ErrorKind};

    // An input that cannot be read.
    #[derive(Drop)]
    struct Failing;

    impl Read for Failing {
        fn read(&mut self, _buf: &mut [u8]) -> io::Result<usize> {
            Err(ErrorKind::Other.into())
        }
    }

    // Whether a file is as long as can be, and its first byte, or a dash.
    fn first(file: &[u8], buffer: &mut [u8]) -> usize {
        if let [long, byte, ..] = buffer {
            *long = u8::from(file.len() == MOST_READ);
            *byte = file.first().copied().unwrap_or(b'-');
        }
        2
    }

    // The text on an input, in a buffer of 16 bytes, and how many bytes it has.
    fn says<R: Read + Drop>(mut input: R) -> io::Result<([u8; 16], u64)> {
        let mut output = Cursor::new([0; 16]);
        answer(&mut input, &mut output, &mut [0; 2], first)?;
        let end = output.position();
        Ok((output.into_inner(), end))
    }

    #[test]
    fn answers_on_files(rt: HostRuntime) -> io::Result<()> {
        let none = b"".as_slice();
        let some = b"ab".as_slice();
        assert_eq!(rt; says(none)?, (*b"\0-\0\0\0\0\0\0\0\0\0\0\0\0\0\0", 2));
        assert_eq!(rt; says(some)?, (*b"\0a\0\0\0\0\0\0\0\0\0\0\0\0\0\0", 2));
        assert_eq!(rt;
            says(some.chain(some))?,
            (*b"\0a\0\0\0\0\0\0\0\0\0\0\0\0\0\0", 2)
        );
        assert_eq!(rt;
            says(io::repeat(b'a'))?,
            (*b"\x01a\0\0\0\0\0\0\0\0\0\0\0\0\0\0", 2)
        );
        Ok(())
    }

    #[test]
    fn unreadable(rt: HostRuntime) -> io::Result<()> {
        assert_eq!(rt; says(Failing)?, (*b"unreadable\n\0\0\0\0\0", 11));
        assert_eq!(rt;
            says(b"ab".as_slice().chain(Failing))?,
            (*b"unreadable\n\0\0\0\0\0", 11)
        );
        Ok(())
    }
}
