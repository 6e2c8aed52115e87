// Key lines answered, one line at a time. Crate `keyinput` has an input of many lines.
#![tactic(auto)]

ghost use Rattle.std.specs.Prelude.{◌≡◌};
ghost use Rattle.willow.specs.Answers.{outcome, written_buffer, written_length};
ghost use Rattle.willow.specs.Refusals.{value};
ghost use Rattle.keyform.specs.Answering.{answer_text};

use keyform::MAX_ENDED_ANSWER;
use willow::Refusal;

pub mod inner;

// The answer to a line, written to the front of out: how many bytes; 15 if out is too short for it.
pub fn answer(line: &[u8], out: &mut [u8]) -> Result<u64, Refusal>
    ensures result_value { outcome result ≡ written_length (value (answer_text line.now)) out.old }
    ensures out_after { out.new ≡ written_buffer (value (answer_text line.now)) out.old }
{
    let mut held = [0u8; MAX_ENDED_ANSWER];
    let n = inner::answer_any(line, &mut held);
    written::write(&&held[..n], out)
}
