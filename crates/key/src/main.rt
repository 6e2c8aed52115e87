// The marking key: question lines from standard input, one answer a line to standard output. All that matters is in crate
// `keyinput`; this reads and writes. It runs in bounded memory, however long the input is. An interrupted read is made again; a
// read or write that fails ends the program, and a line that was begun is then not answered.
//
// It is proved that, unless a write fails, what is held of a line is what all the bytes that were read leave of it, and in `keyinput`
// what stands in the buffer that is written. Nothing is proved of standard output: its `write_all` promises nothing of it.

#![tactic(auto)]

ghost use Rattle.std.specs.Prelude.{[], false, length, Ok, OnOk, take, true, ◌≡◌, ◌≤◌};
ghost use Rattle.keyform.specs.Answering.{held_after, kept};
ghost use Rattle.keyinput.specs.Held.{held_in};
ghost use Rattle.key.specs.Brought.{brought_in};

use keyask::inner::Room;
use keyinput::inner::Pending;
use std::io;
use std::io::{ErrorKind, Read, Stdin, Stdout};

// The most bytes that one read brings, and that one write writes: more than any answer has.
const CHUNK: usize = 65536;

// What the marking goes on with: what is held of a line, the room to answer it in, the chunk that a read brings, and the answers to
// write. The chunk is lent to each read, so that it is cleared once.
#[derive(Drop)]
struct Marking {
    pending: Pending,
    room: Room,
    chunk: [u8; CHUNK],
    out: [u8; CHUNK],
}

impl Marking {
    // Nothing has come.
    fn new() -> Marking
        ensures { held_in result.pending ≡ kept [] }
    {
        Marking {
            pending: Pending::new(),
            room: Room::new(),
            chunk: [0; CHUNK],
            out: [0; CHUNK],
        }
    }

    // The first n bytes of the chunk: the answers to the lines that they end are written, as many at a time as there is room for. Unless
    // a write fails all of them are taken.
    fn answer_chunk(&mut self, to: &Stdout, n: usize) -> io::Result<()>
        requires { n ≤ length self.old.chunk }
        ensures { OnOk result (held_in self.new.pending ≡ held_after (held_in self.old.pending) (take n self.old.chunk)) }
    {
        let mut rest = &self.chunk[..n];
        while !rest.is_empty() {
            let fed = self.pending.feed(rest, &mut self.room, &mut self.out);
            to.write_all(&self.out[..fed.written])?;
            rest = &rest[fed.used..];
        }
        Ok(())
    }

    // What the input's end adds.
    fn answer_last(&mut self, to: &Stdout) -> io::Result<()> {
        let n = self.pending.finish(&mut self.room, &mut self.out);
        to.write_all(&self.out[..n])
    }

    // What a read brought: `got` bytes at the front of the chunk, none where the input has ended, or an error where it failed. Whether
    // there is more to read.
    fn answer_read(&mut self, to: &Stdout, got: io::Result<usize>) -> bool
        ensures leaves { result ≡ true → held_in self.new.pending ≡ held_after (held_in self.old.pending) (brought_in got self.old.chunk) }
        ensures more_value { got ≡ Ok 0 → result ≡ false }
    {
        match got {
            // Where a signal came before a byte did, the read is made again.
            Err(e) => e.kind() == ErrorKind::Interrupted,
            Ok(0) => {
                let _ = self.answer_last(to);
                false
            }
            Ok(count) => self.answer_chunk(to, count.min(CHUNK)).is_ok(),
        }
    }

    // One read. Nothing is said of what is held: what a read brings is not known from outside.
    fn turn(&mut self, from: &mut Stdin, to: &Stdout) -> bool {
        let got = from.read(&mut self.chunk);
        self.answer_read(to, got)
    }
}

// The count of turns is there so that the loop is seen to end: no input uses it up.
fn main(rt: HostRuntime) {
    let mut from = rt.stdin();
    let to = rt.stdout();
    let mut marking = Marking::new();
    for _ in 0..u64::MAX {
        if !marking.turn(&mut from, &to) {
            break;
        }
    }
}
