// A key line, read from the front: three numerals, a letter, and for S and G a path. What is read of a path are its components'
// lengths, as 8-byte numbers, and its bytes: what `from_slices` takes.

ghost use Rattle.std.specs.Prelude.{◌≡◌, ◌*◌, ◌+◌, ◌<◌, ◌≤◌, IfSome, length, unwrap_or};
ghost use Rattle.keyform.specs.Reading.{hex_value, is_dash, is_unit, read_components, read_field, read_line, read_path, read_question};
ghost use Rattle.keyform.specs.Splitting.{pieces};
ghost use Rattle.keyform.specs.Texts.{slash};
ghost use Rattle.keyread.specs.Parts.{ComponentRead, field_read, HexRead, line_read, path_within, PathRead, question_read};

use willow::Limits;

// A question, its path still as text.
#[derive(Clone, Copy)]
pub enum Question<'a> {
    Successor(&'a [u8]),
    NextGreater(&'a [u8]),
    Greatest,
}

// The numeral of 1 to 10 digits at the front, and the space behind it: its number, and what stands behind the space.
fn read_field(line: &[u8]) -> Option<(u64, &[u8])>
    ensures value { field_read result ≡ read_field line.now }
    ensures within { IfSome result (λ f. length f.1.now ≤ length line.now) }
{
    const MOST_DIGITS: usize = 10;
    let mut v: u64 = 0;
    for (i, b) in line.iter().enumerate() {
        match *b {
            b' ' if 0 < i => return Some((v, &line[i + 1..])),
            b'0'..=b'9' if i < MOST_DIGITS => v = 10 * v + u64::from(*b - b'0'),
            _ => return None,
        }
    }
    None
}

// The value of a hexadecimal digit, by hand: the library's `to_digit` reads upper-case digits too, which a key line may not have. Decimal
// digits and letters go one way, since which of them comes cannot be foretold: as two arms of a `match` the program took an eighth longer.
fn hex_value(b: u8) -> Option<u8>
    ensures value { unwrap_or result 16 ≡ hex_value b }
    ensures below { IfSome result (λ d. d < 16) }
{
    let (first, count, value) = if b <= b'9' {
        (b'0', 10, 0)
    } else {
        (b'a', 6, 10)
    };
    let d = b.wrapping_sub(first);
    (d < count).then(|| value + d)
}

// Hexadecimal digits read into out from a place on: how many bytes.
fn read_hex(s: &[u8], out: &mut [u8], to: usize) -> Option<usize>
    requires { 2 * to + length s.now ≤ 2 * length out.old }
    ensures { HexRead s.now out.old to result out.new }
{
    let (pairs, rest) = s.as_chunks::<2>();
    if !rest.is_empty() {
        return None;
    }
    for (k, pair) in pairs.iter().enumerate() {
        let high = hex_value(pair[0])?;
        let low = hex_value(pair[1])?;
        out[to + k] = 16 * high + low;
    }
    Some(pairs.len())
}

// A component read into bytes from a place on: how many bytes.
#[tactic(auto, unfolding(keyform::specs::Reading::read_component))]
fn read_component(s: &[u8], bytes: &mut [u8], to: usize) -> Option<usize>
    requires { 2 * to + length s.now ≤ 2 * length bytes.old }
    ensures { ComponentRead s.now bytes.old to result bytes.new }
{
    if s.is_empty() {
        return None;
    }
    if s == b"-".as_slice() {
        return Some(0);
    }
    read_hex(s, bytes, to)
}

// Components split by slashes, read into lengths and bytes: how many components, and how many bytes. Both are counted by hand: they are
// the answer, and what an `enumerate` counts is gone with its loop.
fn read_components(text: &[u8], lengths: &mut [u8], bytes: &mut [u8]) -> Option<(usize, usize)>
    requires { (4 * length text.now + 8 ≤ length lengths.old) × (length text.now ≤ 2 * length bytes.old) }
    ensures { PathRead (read_components (pieces slash text.now)) lengths.old bytes.old result lengths.new bytes.new }
{
    let mut k: usize = 0;
    let mut n: usize = 0;
    for piece in text.split(|b| *b == b'/') {
        let m = read_component(piece, bytes, n)?;
        number::write_u64(lengths, 8 * k, m as u64);
        n += m;
        k += 1;
    }
    Some((k, n))
}

// A path read into lengths and bytes: how many components, and how many bytes.
#[tactic(auto, unfolding(keyform::specs::Reading::read_path))]
pub fn read_path(text: &[u8], lengths: &mut [u8], bytes: &mut [u8]) -> Option<(usize, usize)>
    requires { (4 * length text.now + 8 ≤ length lengths.old) × (length text.now ≤ 2 * length bytes.old) }
    ensures { PathRead (read_path text.now) lengths.old bytes.old result lengths.new bytes.new }
{
    match text {
        [b'(', b')'] => Some((0, 0)),
        _ => read_components(text, lengths, bytes),
    }
}

// The question that a text is: S or G, a space and a path, or M alone.
fn read_question(text: &[u8]) -> Option<Question<'_>>
    ensures value { question_read result ≡ read_question text.now }
    ensures within { IfSome result (path_within (length text.now)) }
{
    match text {
        [b'S', b' ', path @ ..] => Some(Question::Successor(path)),
        [b'G', b' ', path @ ..] => Some(Question::NextGreater(path)),
        [b'M'] => Some(Question::Greatest),
        _ => None,
    }
}

// A line: its limits, and its question up to the path.
#[tactic(auto, unfolding(keyform::specs::Reading::read_line))]
pub fn read_line(line: &[u8]) -> Option<(Limits, Question<'_>)>
    ensures value { line_read result ≡ read_line line.now }
    ensures within { IfSome result (λ r. path_within (length line.now) r.1) }
{
    let (mcl, line) = read_field(line)?;
    let (mcc, line) = read_field(line)?;
    let (mpl, line) = read_field(line)?;
    let question = read_question(line)?;
    Some((Limits { mcl, mcc, mpl }, question))
}
