//! How calls, numbers and bytes are printed.

use crate::call::Ended;
use inc_base::{Bytes, Memory};
use itoa::Buffer;

/// The most bytes that are printed. Of more it is how many there are.
const SHORT: usize = 256;

/// The status, what the sinks took, and how far the meter rose.
pub fn put_ended(to: &mut Bytes, ended: &Ended) -> Result<(), Memory> {
    put_count(to, b"status ", u64::from(ended.status))?;
    to.append(ended.out.as_slice())?;
    put_image(to, ended.image.as_slice())?;
    put_count(to, b"meter ", ended.emitted)
}

fn put_image(to: &mut Bytes, image: &[u8]) -> Result<(), Memory> {
    if image.is_empty() {
        return to.append(b"no image\n");
    }
    to.append(b"image")?;
    put_bytes(to, image)
}

/// A blank, the bytes or how many there are, and the end of the line.
pub fn put_bytes(to: &mut Bytes, bytes: &[u8]) -> Result<(), Memory> {
    if bytes.len() > SHORT {
        return put_count(to, b" of ", bytes.len() as u64);
    }
    to.append(b" ")?;
    for byte in bytes {
        to.append(&[digit(*byte >> 4), digit(*byte & 15)])?;
    }
    to.append(b"\n")
}

fn digit(value: u8) -> u8 {
    match b"0123456789abcdef".get(value as usize) {
        Some(digit) => *digit,
        None => b'?',
    }
}

/// A number behind these bytes, and the end of the line.
pub fn put_count(to: &mut Bytes, before: &[u8], count: u64) -> Result<(), Memory> {
    let mut digits = Buffer::new();
    to.append(before)?;
    to.append(digits.format(count).as_bytes())?;
    to.append(b"\n")
}
