use crate::read_full;
use std::io;
use std::io::Read;

// Gives one byte a call, and fails once, after `before` bytes.
#[derive(Drop)]
struct FailsOnce {
    bytes: &'static [u8],
    before: usize,
}

impl Read for FailsOnce {
    fn read(&mut self, buf: &mut [u8]) -> io::Result<usize> {
        if self.before == 0 {
            self.before = usize::MAX;
            return Err(io::ErrorKind::Other.into());
        }
        self.before -= 1;
        if self.bytes.is_empty() || buf.is_empty() {
            return Ok(0);
        }
        buf[0] = self.bytes[0];
        self.bytes = &self.bytes[1..];
        Ok(1)
    }
}

#[test]
fn reads_to_the_end_and_no_more_than_fits(rt: HostRuntime) {
    let mut reader: &[u8] = b"abcdef";
    let mut buf = [0u8; 4];
    assert_eq!(rt; read_full(&mut reader, &mut buf), 4);
    assert_eq!(rt; &buf, b"abcd");
    assert_eq!(rt; read_full(&mut reader, &mut buf), 2);
    assert_eq!(rt; &buf, b"efcd");
    assert_eq!(rt; read_full(&mut reader, &mut buf), 0);
}

#[test]
fn reads_in_pieces_until_a_read_fails(rt: HostRuntime) {
    let mut reader = FailsOnce {
        bytes: b"abcdef",
        before: 5,
    };
    let mut buf = [0u8; 4];
    assert_eq!(rt; read_full(&mut reader, &mut buf), 4);
    assert_eq!(rt; &buf, b"abcd");
    assert_eq!(rt; read_full(&mut reader, &mut buf), 1);
    assert_eq!(rt; &buf, b"ebcd");
}
