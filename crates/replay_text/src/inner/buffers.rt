// The buffers of a case: bytes in hexadecimal, numbers of 8 bytes, or a path as document 01 writes it, which is packed. None is longer
// than 1,024 bytes. There is none where the text is of another form, or does not fit.

ghost use Rattle.std.specs.Prelude.{[], ◌<◌, ◌≡◌, ◌≤◌, ◌++◌, IfNone, IfSome, length};
ghost use Rattle.replay_text.specs.Sizes.{max_buffer};

use crate::inner::pieces;
use std::ops::DerefSlice;

const MAX_BUFFER: usize = 1024;

// The first bytes of an array. A case, which has four of these, is copied as its numbers are; an `ArrayVec` has no copies.
#[derive(Clone, Copy)]
pub struct Buffer {
    bytes: [u8; MAX_BUFFER],
    len: usize,
    ghost inside: { len ≤ max_buffer },
}

impl Buffer {
    ghost use Rattle.replay_text.specs.Buffers.{held_in};

    // No bytes.
    pub fn new() -> Buffer
        ensures { held_in result ≡ [] }
    {
        Buffer {
            bytes: [0; MAX_BUFFER],
            len: 0,
        }
    }

    // Bytes more, where there is room for all of them.
    fn extend(&mut self, part: &[u8]) -> Option<()>
        ensures fits { IfSome result (λ u. held_in self.new ≡ held_in self.old ++ part.now) }
        ensures full { IfNone result ((self.new ≡ self.old) × (max_buffer < length (held_in self.old ++ part.now))) }
    {
        if MAX_BUFFER - self.len < part.len() {
            return None;
        }
        number::put(&mut self.bytes, self.len, part);
        self.len += part.len();
        Some(())
    }
}

impl DerefSlice for Buffer {
    ghost use Rattle.replay_text.specs.Buffers.{held_in};

    type Elem = u8;

    ghost deref_gives = { λ b xs. xs ≡ held_in b };

    fn deref(&self) -> &[u8] {
        &self.bytes[..self.len]
    }
}

// The value of a hexadecimal digit. Small letters alone: `to_digit` would take capitals as well.
fn digit_value(b: u8) -> Option<u8>
    ensures { IfSome result (λ d. d < 16) }
{
    match b {
        b'0'..=b'9' => Some(b - b'0'),
        b'a'..=b'f' => Some(b - b'a' + 10),
        _ => None,
    }
}

fn push_number(buffer: &mut Buffer, x: u64) -> Option<()> {
    buffer.extend(&x.to_le_bytes())
}

// The bytes of a text in hexadecimal, two digits a byte.
fn push_bytes(buffer: &mut Buffer, text: &[u8]) -> Option<()> {
    let (pairs, odd) = text.as_chunks::<2>();
    if !odd.is_empty() {
        return None;
    }
    for [high, low] in pairs {
        let byte = 16 * digit_value(*high)? + digit_value(*low)?;
        buffer.extend(&[byte])?;
    }
    Some(())
}

fn push_numbers(buffer: &mut Buffer, text: &[u8]) -> Option<()> {
    for number in text.split(|b| *b == b'/') {
        push_number(buffer, pieces::read_number(number)?)?;
    }
    Some(())
}

// A component's bytes; `-` is the empty component, and none is an empty text.
fn push_component(buffer: &mut Buffer, text: &[u8]) -> Option<()> {
    match text {
        [] => None,
        b"-" => Some(()),
        _ => push_bytes(buffer, text),
    }
}

// A path, packed: the count, the accumulated lengths, the bytes.
fn push_path(buffer: &mut Buffer, text: &[u8]) -> Option<()> {
    if text == b"()".as_slice() {
        return push_number(buffer, 0);
    }
    push_number(buffer, text.split(|b| *b == b'/').count() as u64)?;
    let mut bytes = Buffer::new();
    for component in text.split(|b| *b == b'/') {
        push_component(&mut bytes, component)?;
        push_number(buffer, bytes.len as u64)?;
    }
    buffer.extend(&bytes)
}

// A buffer: x and bytes, n and numbers, or p and a path.
pub fn read_buffer(text: &[u8]) -> Option<Buffer> {
    let mut buffer = Buffer::new();
    let (form, text) = text.split_first()?;
    match *form {
        b'x' => push_bytes(&mut buffer, text)?,
        b'n' => push_numbers(&mut buffer, text)?,
        b'p' => push_path(&mut buffer, text)?,
        _ => return None,
    }
    Some(buffer)
}

// A digest: a buffer of 32 bytes.
pub fn read_digest(text: &[u8]) -> Option<[u8; 32]> {
    let buffer = read_buffer(text)?;
    buffer.as_array().copied()
}
