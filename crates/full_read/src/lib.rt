// Reads from a reader that may give fewer bytes at a time than are asked for.
#![tactic(auto)]

ghost use Rattle.std.specs.Prelude.{◌≤◌, length, take};
ghost use Rattle.std.specs.Io.KnownBytes.{Consumes};

use std::io::Read;

// Reads into the front of `buffer` until it is full or the input ends; a read that fails counts as the end. Gives how many bytes there were: they are
// the next of the reader's, which has those after them left. No clause says that the input has ended where there are fewer than `buffer` has
// room for, since a read may have failed. The loop is a `while`, since its step is what a read gave.
pub fn read_full<R: Read>(reader: &mut R, buffer: &mut [u8]) -> usize
    ensures inside { result ≤ length buffer.new }
    ensures bytes { Consumes (R.remaining reader.old) (R.remaining reader.new) (take result buffer.new) }
{
    let mut done = 0;
    while done < buffer.len() {
        let Ok(read) = reader.read(&mut buffer[done..]) else {
            break;
        };
        if read == 0 {
            break;
        }
        done += read;
    }
    done
}

#[cfg(test)]
mod tests {
    use super::*;
    use std::test::Fail;

    // The first bytes come in two pieces; then fewer are left than the buffer holds, and then none.
    #[test]
    fn reads_over_pieces(rt: HostRuntime) -> Result<(), Fail> {
        let mut reader = b"ab".as_slice().chain(b"cde".as_slice());
        let mut buffer = [0u8; 4];
        assert_eq!(rt; read_full(&mut reader, &mut buffer), 4);
        assert_eq!(rt; buffer, [97, 98, 99, 100]);
        assert_eq!(rt; read_full(&mut reader, &mut buffer), 1);
        assert_eq!(rt; buffer, [101, 98, 99, 100]);
        assert_eq!(rt; read_full(&mut reader, &mut buffer), 0);
        Ok(())
    }
}
