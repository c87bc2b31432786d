// What no clause says of the two ways to read: that they succeed, and what they keep of a read that fails.
use crate::{Unread, read_input, read_or_unread};
use std::io;
use std::io::Read;

// The system's number for a device that fails.
const INPUT_OUTPUT: i32 = 5;

// Gives its bytes one a call, and then fails.
#[derive(Drop)]
struct Broken {
    bytes: &'static [u8],
}

impl Read for Broken {
    fn read(&mut self, buf: &mut [u8]) -> io::Result<usize> {
        match (self.bytes.split_first(), buf.first_mut()) {
            (Some((byte, rest)), Some(place)) => {
                *place = *byte;
                self.bytes = rest;
                Ok(1)
            }
            _ => Err(io::Error::from_raw_os_error(INPUT_OUTPUT)),
        }
    }
}

#[test]
fn a_read_fails_in_mid_stream(rt: HostRuntime) {
    let mut buf = [0u8; 8];
    let code = match read_input(&mut Broken { bytes: b"abc" }, &mut buf) {
        Ok(_) => None,
        Err(error) => error.raw_os_error(),
    };
    assert_eq!(rt; code, Some(INPUT_OUTPUT));
    assert_eq!(rt;
        read_or_unread(&mut Broken { bytes: b"abc" }, &mut buf),
        Err(Unread)
    );
}

#[test]
fn an_input_is_read_to_its_end_or_the_buffers(rt: HostRuntime) {
    for (room, read) in [(0usize, 0usize), (2, 2), (3, 3)] {
        let mut buf = [0u8; 3];
        let n = read_input(&mut Broken { bytes: b"abc" }, &mut buf[..room]);
        assert_eq!(rt; n.ok(), Some(read));
        assert_eq!(rt; &buf[..room], &b"abc"[..room]);
    }
    let mut buf = [0u8; 8];
    let mut text: &[u8] = b"abc";
    assert_eq!(rt; read_input(&mut text, &mut buf).ok(), Some(3));
    assert_eq!(rt; &buf, b"abc\0\0\0\0\0");
}
