// A test of a sheet for each of its bytes, changed by V and changed back: byte i is read as its exclusive or with V. The tests' answers
// stand in one row.

use replay_cases::inner::forms::Line;
use std::io::Stdout;

pub(crate) fn replay<F: Fn(&[u8]) -> u64>(
    to: &Stdout,
    line: Line<'_>,
    sheet: &mut [u8],
    test: F,
) -> Option<()>
    requires { F.IsAlwaysCallable test }
{
    let v = u8::try_from(line.read(b"n")?.n[0]).ok()?;
    // The whole sheet is read while one byte is changed, so no iterator lends the byte.
    for i in 0..sheet.len() {
        sheet[i] ^= v;
        let _ = to.print(test(sheet));
        sheet[i] ^= v;
    }
    let _ = println!(to);
    Some(())
}
