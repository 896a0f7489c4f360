// An input read to its end, over calls that may move fewer bytes than asked, be interrupted by a signal, or fail. A failed read is never taken for
// the end of the input: half a recording has a believable report.
#![tactic(auto)]

ghost use Rattle.std.specs.Prelude.{◌≡◌, ◌<◌, length, take, IfOk, OnErr};
ghost use Rattle.std.specs.Io.{ReadsAtMost};
ghost use Rattle.std.specs.Io.KnownBytes.{Consumes, IsAtEnd, Keeps, ReadConsumes};

use std::io;
use std::io::{ErrorKind, Read};

// How often a read is made where a signal interrupts it. A proved loop has to end, and nothing says that the signals do.
const TRIES: u32 = 1000000;

// Reads until buf is full, the input ends, or a read fails. Answers how many bytes stand at the start of buf: they are what the reader gave,
// and where they are fewer than buf has room for, the reader has no more.
pub fn read_all<R: Read>(reader: &mut R, buf: &mut [u8]) -> io::Result<usize>
    ensures bound { ReadsAtMost result buf.new }
    ensures bytes { IfOk result (λ n. Consumes (R.remaining reader.old) (R.remaining reader.new) (take n buf.new)) }
    ensures end { IfOk result (λ n. n < length buf.new → IsAtEnd (R.remaining reader.new)) }
{
    let mut done = 0;
    // each read goes on by as many bytes as it gave, which no `for` counts
    while done < buf.len() {
        let more = read_some(reader, &mut buf[done..])?;
        if more == 0 {
            break;
        }
        done += more;
    }
    Ok(done)
}

// A read, made again where a signal interrupts it.
fn read_some<R: Read>(reader: &mut R, buf: &mut [u8]) -> io::Result<usize>
    ensures bound { ReadsAtMost result buf.new }
    ensures bytes { ReadConsumes (R.remaining reader.old) (R.remaining reader.new) result buf.new }
{
    for _ in 1..TRIES {
        match reader.read(buf) {
            Err(e) if e.kind() == ErrorKind::Interrupted => {}
            answer => return answer,
        }
    }
    reader.read(buf)
}

#[cfg(test)]
mod tests {
    use super::*;

    // Gives the bytes 0, 1, 2 .. up to an end, one at a time and each only after an interrupted call; or fails at one of them.
    #[derive(Drop)]
    struct Halting {
        next: u8,
        end: u8,
        failing: u8,
        interrupted: bool,
    }

    fn reader_of(end: u8, failing: u8) -> Halting {
        Halting {
            next: 0,
            end,
            failing,
            interrupted: false,
        }
    }

    impl Read for Halting {
        fn read(&mut self, buf: &mut [u8]) -> io::Result<usize> {
            self.interrupted = !self.interrupted;
            if self.interrupted {
                return Err(io::Error::new(ErrorKind::Interrupted, "a signal came"));
            }
            if self.next == self.failing {
                return Err(io::Error::new(ErrorKind::Other, "a byte is lost"));
            }
            if self.next == self.end || buf.is_empty() {
                return Ok(0);
            }
            buf[0] = self.next;
            self.next = self.next.wrapping_add(1);
            Ok(1)
        }
    }

    // No contract says that an interrupted call is made again, or that a call succeeds at all.
    #[test]
    fn reads_to_the_end(rt: HostRuntime) {
        let mut buf = [9u8; 8];
        let mut reader = reader_of(5, 255);
        assert_eq!(rt; read_all(&mut reader, &mut buf).ok(), Some(5));
        assert_eq!(rt; buf, [0, 1, 2, 3, 4, 9, 9, 9]);
    }

    #[test]
    fn reads_until_full(rt: HostRuntime) {
        let mut buf = [9u8; 4];
        let mut reader = reader_of(6, 255);
        assert_eq!(rt; read_all(&mut reader, &mut buf).ok(), Some(4));
        assert_eq!(rt; buf, [0, 1, 2, 3]);
        assert_eq!(rt; read_all(&mut reader, &mut buf).ok(), Some(2));
        assert_eq!(rt; buf, [4, 5, 2, 3]);
    }

    // A failure in mid-stream is an error at that call, and not an end.
    #[test]
    fn failure_is_no_end(rt: HostRuntime) {
        let mut buf = [9u8; 8];
        let mut reader = reader_of(6, 3);
        match read_all(&mut reader, &mut buf) {
            Ok(n) => assert_eq!(rt; n, 99, "it was to fail"),
            Err(e) => assert!(rt; e.kind() == ErrorKind::Other),
        }
    }
}
