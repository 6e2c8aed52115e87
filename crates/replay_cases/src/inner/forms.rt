// A line, and the case in it, read once by the form of its call.

ghost use Rattle.std.specs.Prelude.{◌≤◌};

use crate::inner::answers::Row;
use crate::inner::{answers, kept};
use replay_text::inner::buffers::Buffer;
use replay_text::inner::{buffers, pieces};
use std::io::Stdout;
use std::{slice, str};

// The arguments of a case, those of each kind in their order: numbers, buffers, digests, and the length of the output buffer. Those
// that its form does not have are 0 or empty.
#[derive(Clone, Copy)]
pub struct Case {
    pub n: [u64; 21],
    pub b: [Buffer; 4],
    pub d: [[u8; 32]; 2],
    pub room: u64,
}

// A line of pieces between single spaces, of which the first is its name.
#[derive(Clone, Copy)]
pub struct Line<'a> {
    pub name: &'a str,
    text: &'a [u8],
}

impl<'a> Line<'a> {
    pub fn new(text: &'a [u8]) -> Option<Self> {
        let name = str::from_utf8(text.split(|b| *b == b' ').next()?).ok()?;
        Some(Line { name, text })
    }

    // Piece i, where the line has so many.
    pub fn piece(&self, i: usize) -> Option<&'a [u8]> {
        self.text.split(|b| *b == b' ').nth(i)
    }

    // The pieces of one kind, each read into the next of the places for them. A kind is its letter: an enum would be spelt longer in each
    // form, and it is matched nowhere.
    fn fill<T: Drop, F: Fn(&[u8]) -> Option<T>>(
        &self,
        form: &[u8],
        kind: u8,
        places: &mut [T],
        read: F,
    ) -> Option<()>
        requires { F.IsAlwaysCallable read }
    {
        let pieces = form
            .iter()
            .zip(self.text.split(|b| *b == b' ').skip(1))
            .filter(|piece| *piece.0 == kind);
        for (place, piece) in places.iter_mut().zip(pieces) {
            *place = read(piece.1)?;
        }
        Some(())
    }

    // The case in a line that has a piece for each letter of the form, of its kind.
    pub fn read(&self, form: &[u8]) -> Option<Case> {
        if self.text.split(|b| *b == b' ').skip(1).count() != form.len() {
            return None;
        }
        let mut c = Case {
            n: [0; 21],
            b: [Buffer::new(); 4],
            d: [[0; 32]; 2],
            room: 0,
        };
        self.fill(form, b'n', &mut c.n, pieces::read_number)?;
        self.fill(form, b'b', &mut c.b, buffers::read_buffer)?;
        self.fill(form, b'd', &mut c.d, buffers::read_digest)?;
        self.fill(
            form,
            b'o',
            slice::from_mut(&mut c.room),
            pieces::read_number,
        )?;
        Some(c)
    }

    // Makes a call that answers with numbers, and prints them.
    pub fn ask<const N: usize, A: Into<Row<N>>, F: FnOnce(&Case) -> A>(
        &self,
        to: &Stdout,
        form: &[u8],
        call: F,
    ) -> Option<()>
        requires callable { F.IsAlwaysCallable call }
        requires room { N ≤ 32 }
    {
        let c = self.read(form)?;
        answers::print_row(to, call(&c));
        Some(())
    }

    // Makes a call that writes into a buffer of at most 256 bytes ee, and prints its answer and the whole buffer.
    pub fn write<const N: usize, A: Into<Row<N>>, F: FnOnce(&Case, &mut [u8]) -> A>(
        &self,
        to: &Stdout,
        form: &[u8],
        call: F,
    ) -> Option<()>
        requires callable { F.IsAlwaysCallable call }
        requires room { N ≤ 32 }
    {
        let c = self.read(form)?;
        let mut out = kept::filled::<256>(c.room)?;
        let answer = call(&c, &mut out);
        answers::print_with(to, answer, &out);
        Some(())
    }
}
