// What the small programs share: a stream or a file is read into a lent buffer.
#![tactic(auto)]

ghost use Rattle.std.specs.Prelude.{◌≡◌, IfSome, OnOk, length, take};
ghost use Rattle.std.specs.Io.KnownBytes.{Consumes};
ghost use Rattle.streams.specs.Reads.{IsPrefixLen};

use std::fs::File;
use std::io;
use std::io::Read;
use std::rt::Files;

// Reads until the buffer is full, the input ends or a read fails, and says how many bytes it put at the buffer's start, and whether a read failed.
pub fn read_full<R: Read>(reader: &mut R, buf: &mut [u8]) -> (usize, io::Result<()>)
    ensures count { IsPrefixLen result.0 buf.new }
    ensures lost { Consumes (R.remaining reader.old) (R.remaining reader.new) (take result.0 buf.new) }
    ensures whole { OnOk result.1 (IfSome (R.remaining reader.old) (λ xs. take result.0 buf.new ≡ take (length buf.old) xs)) }
{
    let mut done = 0; // no range: each read says how many bytes it put
    while done < buf.len() {
        match reader.read(&mut buf[done..]) {
            Ok(0) => break,
            Ok(n) => done += n,
            Err(e) => return (done, Err(e)),
        }
    }
    (done, Ok(()))
}

// Loads a file into the buffer and says how many bytes came. A file that cannot be opened, as one that is not there, counts as 0 bytes; where reading fails, the bytes that came before count.
pub fn load<R: Files>(files: &R, path: &str, buf: &mut [u8]) -> usize
    ensures { IsPrefixLen result buf.new }
{
    File::open(files, path).map_or(0, |mut file| read_full(&mut file, buf).0)
}

#[cfg(test)]
mod tests {
    use super::*;
    use std::io::ErrorKind;
    use std::test::Fail;

    // Gives one byte, and fails from then on.
    #[derive(Drop)]
    struct Broken {
        has_given: bool,
    }

    impl Read for Broken {
        fn read(&mut self, buf: &mut [u8]) -> io::Result<usize> {
            if self.has_given || buf.is_empty() {
                return Err(io::Error::from(ErrorKind::Other));
            }
            self.has_given = true;
            buf[0] = b'a';
            Ok(1)
        }
    }

    #[test]
    fn a_longer_input_fills_the_buffer(rt: HostRuntime) -> Result<(), Fail> {
        let mut input: &[u8] = b"abc";
        let mut buf = [0u8; 2];
        let (n, ended) = read_full(&mut input, &mut buf);
        assert!(rt; ended.is_ok());
        assert_eq!(rt; n, 2);
        assert_eq!(rt; buf, *b"ab");
        Ok(())
    }

    #[test]
    fn a_shorter_input_ends(rt: HostRuntime) -> Result<(), Fail> {
        let mut input: &[u8] = b"abc";
        let mut buf = [0u8; 4];
        let (n, ended) = read_full(&mut input, &mut buf);
        assert!(rt; ended.is_ok());
        assert_eq!(rt; n, 3);
        assert_eq!(rt; buf, *b"abc\0");
        Ok(())
    }

    #[test]
    fn what_came_before_a_failure_counts(rt: HostRuntime) -> Result<(), Fail> {
        let mut input = Broken { has_given: false };
        let mut buf = [0u8; 4];
        let (n, ended) = read_full(&mut input, &mut buf);
        assert!(rt; ended.is_err());
        assert_eq!(rt; n, 1);
        assert_eq!(rt; buf[0], b'a');
        Ok(())
    }
}
