// What is printed for a case.

ghost use Rattle.std.specs.Prelude.{◌≤◌};

use convention::Answer;
use std::fmt;
use std::io::Stdout;

// What a call answers, as numbers, which are printed with spaces between them.
#[derive(Clone, Copy)]
pub struct Row<const N: usize>(pub [u64; N]);

impl<const N: usize> fmt::Display for Row<N> {
    fn fmt<W: fmt::Write>(&self, f: &mut fmt::Formatter<W>) -> fmt::Result {
        for (i, x) in self.0.iter().enumerate() {
            if 0 < i {
                f.write_str(" ")?;
            }
            write!(f, "{x}")?;
        }
        Ok(())
    }
}

// A test's answer.
impl From<u64> for Row<1> {
    fn from(status: u64) -> Self {
        Row([status])
    }
}

impl From<Answer> for Row<2> {
    fn from(a: Answer) -> Self {
        Row([a.status, a.value])
    }
}

// Bytes, which are printed in hexadecimal.
#[derive(Clone, Copy)]
struct Hex<'a>(&'a [u8]);

impl fmt::Display for Hex<'_> {
    fn fmt<W: fmt::Write>(&self, f: &mut fmt::Formatter<W>) -> fmt::Result {
        for byte in self.0 {
            write!(f, "{byte:02x}")?;
        }
        Ok(())
    }
}

pub fn print_row<const N: usize, A: Into<Row<N>>>(to: &Stdout, answer: A)
    requires { N ≤ 32 }
{
    let row: Row<N> = answer.into();
    let _ = println!(to; "{row}");
}

// An answer, and a buffer behind it.
pub fn print_with<const N: usize, A: Into<Row<N>>>(to: &Stdout, answer: A, bytes: &[u8])
    requires { N ≤ 32 }
{
    let row: Row<N> = answer.into();
    let hex = Hex(bytes);
    let _ = println!(to; "{row} {hex}");
}
