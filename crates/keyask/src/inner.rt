// A key line's question, put to the calls that answer it. The room is lent by the caller, so that a program that answers many lines
// clears none of it.

ghost use Rattle.std.specs.Prelude.{◌≡◌, ◌≤◌, IfErr, IfOk, IfSome, length, take};
ghost use Rattle.std.proofs.Math.Option.{none};
ghost use Rattle.willow.specs.Answers.{optional_outcome, optional_outcome_by, packed_outcome, path_refusal, written_buffer, written_length};
ghost use Rattle.willow.specs.Packed.{pack, Packed, packed_count};
ghost use Rattle.willow.specs.Refusals.{refused, value};
ghost use Rattle.packed.specs.LentPaths.{path_of};
ghost use Rattle.keyform.specs.Answering.{line_outcome};
ghost use Rattle.keyform.specs.Reading.{read_path};
ghost use Rattle.keyform.specs.Wording.{max_line};
ghost use Rattle.keyask.specs.Found.{made_outcome};

use keyform::MAX_LINE;
use keyread::inner::Question;
use packed::lent::LentPath;
use refusals::{MAX_MCC, MAX_MPL};
use willow::{Limits, Refusal};

// The room that every line's path needs: for the lengths of its components and for their bytes, since of every two bytes of a line one
// length and one byte can come at most, and for a path packed (`max_packed`).
pub const MAX_SIZES: usize = 4 * MAX_LINE + 8;

pub const MAX_BYTES: usize = MAX_LINE / 2;

pub const MAX_PACKED: usize = 8 + 8 * MAX_MCC as usize + MAX_MPL as usize;

// What a line's path is made in: the lengths and the bytes of its components, and the path packed.
#[derive(Drop)]
pub struct Made {
    pub lengths: [u8; MAX_SIZES],
    pub bytes: [u8; MAX_BYTES],
    pub packed: [u8; MAX_PACKED],
}

// What a line is answered in: the room for its path, and the path that answers it.
#[derive(Drop)]
pub struct Room {
    pub made: Made,
    pub next: [u8; MAX_PACKED],
}

impl Room {
    // Room in which nothing stands yet.
    pub fn new() -> Room {
        Room {
            made: Made {
                lengths: [0; MAX_SIZES],
                bytes: [0; MAX_BYTES],
                packed: [0; MAX_PACKED],
            },
            next: [0; MAX_PACKED],
        }
    }
}

// A path that a call has written to the front of a buffer, by how many bytes it says they are.
fn written(n: u64, buffer: &[u8]) -> LentPath<'_>
    requires { (n ≤ length buffer.now) × Packed (take n buffer.now) }
    ensures bytes { result.bytes.now ≡ take n buffer.entry.now }
    ensures count { result.count ≡ packed_count (take n buffer.entry.now) }
{
    let bytes = &buffer[..n as usize];
    LentPath {
        bytes,
        count: packed::inner::component_count(bytes),
    }
}

// The path of a text, made by the rules of `from_slices`: 3 where it is no path.
fn make_path<'a>(limits: Limits, text: &[u8], made: &'a mut Made) -> Result<LentPath<'a>, Refusal>
    requires { length text.now ≤ max_line }
    ensures ok { IfOk result (λ p. (path_refusal limits p.bytes.now p.count ≡ none) × (made_outcome limits (read_path text.entry.now) ≡ value (path_of p))) }
    ensures err { IfErr result (λ r. made_outcome limits (read_path text.entry.now) ≡ refused r) }
{
    let read = keyread::inner::read_path(text, &mut made.lengths, &mut made.bytes);
    let (k, n) = read.ok_or(Refusal::BadKind)?;
    let size = construction::from_slices(
        limits,
        &made.lengths[..8 * k],
        &made.bytes[..n],
        &mut made.packed,
    )?;
    Ok(written(size, &made.packed))
}

// A line's question, put to the call that answers it: the greatest path, or the least above the path of the line's text.
fn put_question(line: &[u8], room: &mut Room) -> Result<Option<u64>, Refusal>
    requires { length line.now ≤ max_line }
    ensures result_value { optional_outcome result ≡ written_length (packed_outcome (line_outcome line.now)) room.old.next }
    ensures next_after { room.new.next ≡ written_buffer (packed_outcome (line_outcome line.now)) room.old.next }
{
    let (limits, question) = keyread::inner::read_line(line).ok_or(Refusal::BadKind)?;
    match question {
        Question::Successor(text) => {
            let path = make_path(limits, text, &mut room.made)?;
            least::successor(limits, path.bytes, path.count as u64, &mut room.next)
        }
        Question::NextGreater(text) => {
            let path = make_path(limits, text, &mut room.made)?;
            least::greater_but_not_prefixed(limits, path.bytes, path.count as u64, &mut room.next)
        }
        Question::Greatest => greatest::new_max(limits, &mut room.next).map(Some),
    }
}

// A line's outcome, its path lent from the room: the part lent is that path's packed form and no more, with the count of all its
// components.
pub fn ask<'a>(line: &[u8], room: &'a mut Room) -> Result<Option<LentPath<'a>>, Refusal>
    requires { length line.now ≤ max_line }
    ensures outcome { optional_outcome_by path_of result ≡ line_outcome line.entry.now }
    ensures packed { IfOk result (λ o. IfSome o (λ p. p.bytes.now ≡ pack (path_of p))) }
    ensures counted { IfOk result (λ o. IfSome o (λ p. p.count ≡ length (path_of p))) }
{
    match put_question(line, room)? {
        Some(size) => Ok(Some(written(size, &room.next))),
        None => Ok(None),
    }
}
