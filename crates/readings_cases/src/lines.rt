// The input, line by line.
use std::io::{self, BufRead};

// The most bytes that a line may have.
pub const LONGEST: usize = 1048576;

// Reads the next line without its end, which is byte 10 or the end of the input; whether there was one. Of a line that is too long one byte
// more than the longest is kept. An error of the input is handed on, an interruption too, which `read_until` of std would pass over.
pub fn read_line<R: BufRead>(input: &mut R, line: &mut Vec<u8>) -> io::Result<bool> {
    line.clear();
    let mut is_there = false;
    // A loop that waits on input has to be counted.
    for _ in 0..u64::MAX {
        let available = input.fill_buf()?;
        let Some(piece) = available.split_inclusive(|byte| *byte == b'\n').next() else {
            break;
        };
        is_there = true;
        let taken = piece.len();
        let (bytes, is_ended) = match piece.strip_suffix(b"\n") {
            Some(bytes) => (bytes, true),
            None => (piece, false),
        };
        let room = (LONGEST + 1).saturating_sub(line.len());
        line.extend_from_slice(&bytes[..bytes.len().min(room)])?;
        input.consume(taken);
        if is_ended {
            break;
        }
    }
    Ok(is_there)
}

#[cfg(test)]
mod tests {
    use super::*;
    use std::io::{BufReader, ErrorKind, Read};
    use std::test::Fail;

    #[test]
    fn reads_two_lines(rt: HostRuntime) -> Result<(), Fail> {
        let mut input: &[u8] = b"file []\nask";
        let mut line = Vec::new(rt.alloc());
        assert!(rt; read_line(&mut input, &mut line)?);
        assert_eq!(rt; line.as_slice(), b"file []".as_slice());
        assert!(rt; read_line(&mut input, &mut line)?);
        assert_eq!(rt; line.as_slice(), b"ask".as_slice());
        assert!(rt; !read_line(&mut input, &mut line)?);
        Ok(())
    }

    #[test]
    fn keeps_one_byte_more_of_a_line_that_is_too_long(rt: HostRuntime) -> Result<(), Fail> {
        let mut bytes = Vec::new(rt.alloc());
        bytes.resize(LONGEST, b'a')?;
        bytes.push(b'\n')?;
        bytes.resize(3 * LONGEST, b'b')?;
        bytes.extend_from_slice(b"\nask")?;
        let mut input = BufReader::with_capacity(rt.alloc(), 4096, bytes.as_slice())?;
        let mut line = Vec::new(rt.alloc());
        assert!(rt; read_line(&mut input, &mut line)?);
        assert_eq!(rt; line.len(), LONGEST);
        assert!(rt; read_line(&mut input, &mut line)?);
        assert_eq!(rt; line.len(), LONGEST + 1);
        assert!(rt; read_line(&mut input, &mut line)?);
        assert_eq!(rt; line.as_slice(), b"ask".as_slice());
        Ok(())
    }

    // An input whose second read is interrupted, and which has all of its bytes otherwise.
    #[derive(Drop)]
    struct Halting<'a> {
        reads: u32,
        rest: &'a [u8],
    }

    impl<'a> Read for Halting<'a> {
        fn read(&mut self, buf: &mut [u8]) -> io::Result<usize> {
            self.reads = self.reads.saturating_add(1);
            if self.reads == 2 {
                return Err(io::Error::from(ErrorKind::Interrupted));
            }
            self.rest.read(buf)
        }
    }

    #[test]
    fn hands_an_interruption_on(rt: HostRuntime) -> Result<(), Fail> {
        let halting = Halting {
            reads: 0,
            rest: b"ask\nfile []\nunit",
        };
        let mut input = BufReader::with_capacity(rt.alloc(), 8, halting)?;
        let mut line = Vec::new(rt.alloc());
        assert!(rt; read_line(&mut input, &mut line)?);
        assert_eq!(rt; line.as_slice(), b"ask".as_slice());
        match read_line(&mut input, &mut line) {
            Ok(_) => panic!(rt; "the read was tried again"),
            Err(error) => assert!(rt; error.kind() == ErrorKind::Interrupted),
        }
        Ok(())
    }
}
