// How answers become numbers for a host in another language. Such a host passes plain numbers and byte buffers and gets numbers
// back: an exported call is one call of the core, whose answer becomes a status and values. For a value that has a number of its own
// these functions do that; an answer of another form has a function beside the export. A test gives its status alone.
#![tactic(auto)]

ghost use Rattle.std.specs.Prelude.{◌≡◌, ℕ};
ghost use Rattle.willow.specs.Answers.{optional_outcome, outcome, refusal_of};
ghost use Rattle.willow.specs.Orders.{order_number};
ghost use Rattle.willow.specs.Refusals.{refusal_number};
ghost use Rattle.convention.specs.Exports.{given, itself, refusal_status, value_or_status, yes_number};

use std::cmp::Ordering;
use willow::Refusal;

// The status where nothing is refused and there is no value.
pub const NO_VALUE: u64 = 255;

// What an exported call returns: 0, a refusal's number or 255 for none; and the value, 0 unless there is an answer.
#[repr(C)]
#[derive(Clone, Copy)]
pub struct Answer {
    pub status: u64,
    pub value: u64,
}

// A value that a host gets as a number.
pub trait Numbered {
    ghost number: { Self → ℕ };

    fn number(self) -> u64
        ensures { result ≡ number self };
}

// A number as it is.
impl Numbered for u64 {
    ghost number = { itself };

    fn number(self) -> u64 {
        self
    }
}

// Yes as 1, no as 0.
impl Numbered for bool {
    ghost number = { yes_number };

    fn number(self) -> u64 {
        u64::from(self)
    }
}

// An order as its number.
impl Numbered for Ordering {
    ghost number = { order_number };

    fn number(self) -> u64 {
        refusals::order_number(self)
    }
}

// A test: 0 where nothing is refused.
pub fn tested(t: Result<(), Refusal>) -> u64
    ensures { result ≡ refusal_status (refusal_of t) }
{
    match t {
        Err(r) => refusals::refusal_number(r),
        Ok(()) => 0,
    }
}

// A value that there is.
fn with_value(value: u64) -> Answer
    ensures { (result.status ≡ 0) × (result.value ≡ value) }
{
    Answer { status: 0, value }
}

// A refusal.
pub fn refused(r: Refusal) -> Answer
    ensures { (result.status ≡ refusal_number r) × (result.value ≡ 0) }
{
    Answer {
        status: refusals::refusal_number(r),
        value: 0,
    }
}

// A value or a refusal.
pub fn answered<T: Numbered>(a: Result<T, Refusal>) -> Answer
    ensures { result ≡ given T.number (outcome a) }
{
    match a {
        Err(r) => refused(r),
        Ok(x) => with_value(x.number()),
    }
}

// A value that there may not be, taken apart: the value, or the status that says why there is none.
pub fn value_or_status<T>(a: Result<Option<T>, Refusal>) -> Result<T, u64>
    ensures { result ≡ value_or_status a }
{
    match a {
        Err(r) => Err(refusals::refusal_number(r)),
        Ok(x) => x.ok_or(NO_VALUE),
    }
}

// A value, 255 where there is none, or a refusal.
pub fn answered_if_any<T: Numbered>(a: Result<Option<T>, Refusal>) -> Answer
    ensures { result ≡ given T.number (optional_outcome a) }
{
    match value_or_status(a) {
        Err(status) => Answer { status, value: 0 },
        Ok(value) => with_value(value.number()),
    }
}
