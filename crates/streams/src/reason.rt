// Why a read or a write failed, in the system's words.
use std::fmt::Write;
use std::{fmt, io};

// So many bytes of an error's text are kept.
const MOST_KEPT: usize = 256;

// What an error's text puts behind the system's words.
const NUMBER: &[u8] = b" (os error ";

// The beginning of an error's text. An array with its length beside it, since there is no heap.
#[derive(Clone, Copy)]
pub struct Reason {
    text: [u8; MOST_KEPT],
    length: usize,
}

impl fmt::Write for Reason {
    fn write_str(&mut self, s: &str) -> fmt::Result {
        // Byte by byte, each where there is room: no field says that the length is within the text.
        for b in s.as_bytes() {
            if self.length < MOST_KEPT {
                self.text[self.length] = *b;
                self.length += 1;
            }
        }
        Ok(())
    }
}

impl Reason {
    pub fn of(error: io::Error) -> Reason {
        let mut reason = Reason {
            text: [0u8; MOST_KEPT],
            length: 0,
        };
        let _kept = write!(reason, "{error}").is_ok();
        reason
    }

    // The system's words alone.
    pub fn words(&self) -> &[u8] {
        // A loop: what find gives would have to be shown within the text before it is cut.
        for end in 0..MOST_KEPT {
            if self.length <= end || self.text[end..].starts_with(NUMBER) {
                return &self.text[..end];
            }
        }
        &self.text
    }
}
