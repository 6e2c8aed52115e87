// The form of key lines: definitions and theorems (specs/), and the bounds that the functions of the crates above go by. What holds
// a constant against its definition is the proof of each function that tests it or makes a buffer of it.
#![tactic(auto)]

use refusals::{MAX_MCC, MAX_MPL};

// The most bytes in a line (`max_line`), and in an answer without its newline (`max_answer`) and with it.
pub const MAX_LINE: usize = 16384;

pub const MAX_ANSWER: usize = 2 * MAX_MPL as usize + 2 * MAX_MCC as usize;

pub const MAX_ENDED_ANSWER: usize = MAX_ANSWER + 1;
