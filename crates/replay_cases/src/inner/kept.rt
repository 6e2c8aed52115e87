// What a program keeps from line to line, for the parts whose calls are made with a buffer that the host keeps.
//
//     room L            the buffer is L bytes ee from now on
//     sheet B           the buffer is these bytes
//     more B            these bytes stand behind it
//     cut L             the buffer is its first L bytes
//     poke AT BYTE      the byte at this place, from 0, is this number
//
// These lines print nothing. One that asks for more than there is, or for more than the part has room for, is unreadable and
// changes nothing.

use crate::inner::forms::Line;
use arrayvec::ArrayVec;

// A sheet that the host keeps.
pub type Sheet = ArrayVec<u8, 4096>;

// A buffer of so many bytes ee, where there is room for them.
pub fn filled<const N: usize>(len: u64) -> Option<ArrayVec<u8, N>> {
    let fresh = [238u8; N];
    ArrayVec::try_from(fresh.get(..len as usize)?).ok()
}

// A buffer of these bytes, where there is room for them.
pub fn of_bytes<const N: usize>(bytes: &[u8]) -> Option<ArrayVec<u8, N>> {
    ArrayVec::try_from(bytes).ok()
}

fn cut(sheet: &mut Sheet, len: u64) -> Option<()> {
    if (sheet.len() as u64) < len {
        return None;
    }
    sheet.truncate(len as usize);
    Some(())
}

fn poke(sheet: &mut Sheet, at: u64, byte: u64) -> Option<()> {
    let byte = u8::try_from(byte).ok()?;
    *sheet.get_mut(at as usize)? = byte;
    Some(())
}

// Carries one of these lines out, of a sheet.
pub fn keep(line: Line<'_>, sheet: &mut Sheet) -> Option<()> {
    match line.name {
        "room" => *sheet = filled(line.read(b"n")?.n[0])?,
        "sheet" => *sheet = of_bytes(&line.read(b"b")?.b[0])?,
        "more" => sheet.try_extend_from_slice(&line.read(b"b")?.b[0]).ok()?,
        "cut" => cut(sheet, line.read(b"n")?.n[0])?,
        "poke" => {
            let c = line.read(b"nn")?;
            poke(sheet, c.n[0], c.n[1])?;
        }
        _ => return None,
    }
    Some(())
}
