ghost use Rattle.std.specs.Prelude.{◌≤◌, ℕ, List, length, OnOk, OnErr, IfOk};
ghost use Rattle.std.specs.Io.KnownBytes.{Appends, ReadConsumes};
ghost use Rattle.as_outside.specs.Prefix.{IsPrefix};

use as_outside::Failed;
use std::io::{ErrorKind, Read, Write};

/// Writes all the bytes, however few go at a time; a write that is interrupted is tried again. After `Failed` a prefix
/// of them was written.
pub fn write_whole<W: Write>(to: &mut W, bytes: &[u8]) -> Result<(), Failed>
    ensures ok { OnOk result (Appends (W.contents to.old) (W.contents to.new) bytes.now) }
    ensures err { OnErr result ((front : List ℕ) × IsPrefix front bytes.now ×
        Appends (W.contents to.old) (W.contents to.new) front) }
{
    let mut rest = bytes;
    for _ in 0..u64::MAX {
        if rest.is_empty() {
            return Ok(());
        }
        match to.write(rest) {
            Ok(0) => return Err(Failed),
            Ok(written) => rest = &rest[written..],
            Err(e) if e.kind() == ErrorKind::Interrupted => {}
            Err(_) => return Err(Failed),
        }
    }
    Err(Failed)
}

/// Reads what is there, once there is something or the end, and says how many bytes: 0 at the end only. A read that is
/// interrupted is tried again. `Failed` moved none.
pub fn read_some<S: Read>(from: &mut S, buf: &mut [u8]) -> Result<usize, Failed>
    ensures room { IfOk result (λ read. read ≤ length buf.old) }
    ensures bytes { ReadConsumes (S.remaining from.old) (S.remaining from.new) result buf.new }
{
    for _ in 0..u64::MAX {
        match from.read(buf) {
            Ok(read) => return Ok(read),
            Err(e) if e.kind() == ErrorKind::Interrupted => {}
            Err(_) => return Err(Failed),
        }
    }
    Err(Failed)
}

#[cfg(test)]
mod tests {
    use super::*;
    use std::io;
    use std::test::Fail;

    // Takes one byte at a time, and is interrupted before each.
    #[derive(Drop)]
    struct Fitful {
        taken: Vec<u8>,
        is_interrupted: bool,
    }

    impl Write for Fitful {
        fn write(&mut self, buf: &[u8]) -> io::Result<usize> {
            self.is_interrupted = !self.is_interrupted;
            if self.is_interrupted {
                return Err(io::Error::from(ErrorKind::Interrupted));
            }
            let Some(byte) = buf.first() else {
                return Ok(0);
            };
            self.taken.push(*byte)?;
            Ok(1)
        }

        fn flush(&mut self) -> io::Result<()> {
            Ok(())
        }
    }

    #[test]
    fn a_fitful_writer_gets_all(rt: HostRuntime) -> Result<(), Fail> {
        let mut writer = Fitful {
            taken: Vec::new(rt.alloc()),
            is_interrupted: false,
        };
        assert_eq!(rt; write_whole(&mut writer, b"1 ok\n"), Ok(()));
        assert_eq!(rt; writer.taken.as_slice(), b"1 ok\n".as_slice());
        Ok(())
    }
}
