// An input of lines that comes in chunks: what has come of a line is held until its newline, and then answered. Nothing here is open
// to a caller: the buffer for the answers must be long enough. A place goes in and the next comes out: a writer that holds both would
// need the same premise anew after each write.

ghost use Rattle.std.specs.Prelude.{[], ◌≡◌, ◌+◌, ◌≤◌, length};
ghost use Rattle.number.specs.Overwriting.{overwrite};
ghost use Rattle.keyform.specs.Answering.{held_answer, kept, max_answer, printed_at_end};
ghost use Rattle.keyinput.specs.Within.{Within};

use keyask::inner::Room;
use keyform::{MAX_ANSWER, MAX_LINE};
use willow::Refusal;

// What has come of a line: how many bytes of a buffer are its bytes, or, where more came than a line may have, no more than that. It can be
// copied, which an `ArrayVec` cannot, nor a `Model` whose value leaves out the bytes behind those that are held.
#[derive(Clone, Copy)]
pub struct Pending {
    bytes: [u8; MAX_LINE],
    held: Option<usize>,
    ghost within: { Within held },
}

// What feeding a chunk has done: how many bytes of it were taken, and how many bytes of answers were written.
#[derive(Clone, Copy)]
pub struct Fed {
    pub used: usize,
    pub written: usize,
}

impl Pending {
    ghost use Rattle.keyinput.specs.Held.{Feeds, held_in, longer_by};

    // Nothing has come.
    pub fn new() -> Pending
        ensures { held_in result ≡ kept [] }
    {
        Pending {
            bytes: [0; MAX_LINE],
            held: Some(0),
        }
    }

    // The next line begins.
    fn clear(&mut self)
        ensures { held_in self.new ≡ kept [] }
    {
        self.held = Some(0);
    }

    // Bytes more of a line, none of them its newline.
    fn extend(&mut self, part: &[u8])
        ensures { held_in self.new ≡ longer_by (held_in self.old) part.now }
    {
        let Some(n) = self.held else {
            return;
        };
        if self.bytes.len() - n < part.len() {
            self.held = None;
            return;
        }
        number::put(&mut self.bytes, n, part);
        self.held = Some(n + part.len());
    }

    // The answer to the line that is held, written from a place on: the place behind it.
    fn end_line(&self, room: &mut Room, out: &mut [u8], to: usize) -> usize
        requires { to + max_answer + 1 ≤ length out.old }
        ensures value { result ≡ to + length (held_answer (held_in self.now)) }
        ensures out_after { out.new ≡ overwrite out.old to (held_answer (held_in self.now)) }
    {
        let Some(n) = self.held else {
            let at = keyshow::inner::put_refused(Refusal::BadKind, out, to);
            out[at] = b'\n';
            return at + 1;
        };
        keyline::inner::answer_line(&self.bytes[..n], room, out, to)
    }

    // The rest of a line, which its newline ends. The place behind the answer.
    fn take_line(&mut self, part: &[u8], room: &mut Room, out: &mut [u8], to: usize) -> usize
        requires { to + max_answer + 1 ≤ length out.old }
        ensures value { result ≡ to + length (held_answer (longer_by (held_in self.old) part.now)) }
        ensures out_after { out.new ≡ overwrite out.old to (held_answer (longer_by (held_in self.old) part.now)) }
        ensures anew { held_in self.new ≡ kept [] }
    {
        self.extend(part);
        let at = self.end_line(room, out, to);
        self.clear();
        at
    }

    // A chunk of the input, line by line, as far as there is room for the answers.
    pub fn feed(&mut self, chunk: &[u8], room: &mut Room, out: &mut [u8]) -> Fed
        ensures { Feeds (held_in self.old) chunk.now out.old result (held_in self.new) out.new }
    {
        let mut at = 0;
        let mut rest = chunk;
        while let Some(n) = rest.iter().position(|b| *b == b'\n') {
            if out.len() - at <= MAX_ANSWER {
                return Fed {
                    used: chunk.len() - rest.len(),
                    written: at,
                };
            }
            at = self.take_line(&rest[..n], room, out, at);
            rest = &rest[n + 1..];
        }
        // Behind the last newline nothing is answered, so that no room is needed.
        self.extend(rest);
        Fed {
            used: chunk.len(),
            written: at,
        }
    }

    // The answer that the input's end adds: that of a line which no newline has ended.
    pub fn finish(&self, room: &mut Room, out: &mut [u8]) -> usize
        requires { max_answer + 1 ≤ length out.old }
        ensures inside { result ≤ length out.old }
        ensures value { result ≡ length (printed_at_end (held_in self.now)) }
        ensures out_after { out.new ≡ overwrite out.old 0 (printed_at_end (held_in self.now)) }
    {
        match self.held {
            Some(0) => 0,
            _ => self.end_line(room, out, 0),
        }
    }
}
