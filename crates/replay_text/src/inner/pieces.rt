// The numbers in a text.

// A decimal number below 2^64. Digits alone: `parse` would take a sign as well.
pub fn read_number(text: &[u8]) -> Option<u64> {
    if text.is_empty() {
        return None;
    }
    text.iter().try_fold(0u64, |x, b| with_digit(x, *b))
}

// A number with one more decimal digit behind it.
fn with_digit(x: u64, digit: u8) -> Option<u64> {
    let value = char::from(digit).to_digit(10)?;
    x.checked_mul(10)?.checked_add(u64::from(value))
}
