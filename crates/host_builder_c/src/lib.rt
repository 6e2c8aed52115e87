// For C: the calls of `host_builder`, as a static library. Each is the call of that name there, and promises what that promises;
// the head of `host_builder` says how its arguments are passed.
#![tactic(auto)]

ghost use Rattle.std.specs.Prelude.{◌≡◌};
ghost use Rattle.willow.specs.Answers.{unless};
ghost use Rattle.willow.specs.Refusals.{value};
ghost use Rattle.convention.specs.Exports.{limits_of};
ghost use Rattle.builder_law.specs.Building.{by_refusal, new_buffer, new_refusal, prefix_buffer, prefix_refusal};
ghost use Rattle.builder.specs.Calls.{append_refusal, build_refusal, declared_size, grown, grown_buffer, kept_state, state_of};
ghost use Rattle.host_builder.specs.BuilderExports.{appended_answer, built_answer, started_answer};

use builder::Builder;
use host_builder::{BuilderAnswer, BuiltAnswer};

// A builder for a path of a declared length and count.
#[unsafe(no_mangle)]
pub extern "C" fn wotskrale_builder_new(
    mcl: u64,
    mcc: u64,
    mpl: u64,
    length: u64,
    count: u64,
    out: &mut [u8],
) -> BuilderAnswer
    ensures value { result ≡ started_answer (unless (new_refusal (limits_of mcl mcc mpl) length count out.old) (value (state_of (limits_of mcl mcc mpl) length count 0))) }
    ensures out_after { out.new ≡ by_refusal (new_refusal (limits_of mcl mcc mpl) length count out.old) out.old (new_buffer count out.old) }
{
    host_builder::wotskrale_builder_new(mcl, mcc, mpl, length, count, out)
}

// A builder that begins with the first n components of a lent reference.
#[unsafe(no_mangle)]
pub extern "C" fn wotskrale_builder_new_from_prefix(
    mcl: u64,
    mcc: u64,
    mpl: u64,
    length: u64,
    count: u64,
    b: &[u8],
    k: u64,
    n: u64,
    out: &mut [u8],
) -> BuilderAnswer
    ensures value { result ≡ started_answer (unless (prefix_refusal (limits_of mcl mcc mpl) length count b.now k n out.old) (value (state_of (limits_of mcl mcc mpl) length count n))) }
    ensures out_after { out.new ≡ by_refusal (prefix_refusal (limits_of mcl mcc mpl) length count b.now k n out.old) out.old (prefix_buffer count b.now n out.old) }
{
    host_builder::wotskrale_builder_new_from_prefix(mcl, mcc, mpl, length, count, b, k, n, out)
}

// The next component.
#[unsafe(no_mangle)]
pub extern "C" fn wotskrale_builder_append_component(
    state: Builder,
    out: &mut [u8],
    c: &[u8],
) -> BuilderAnswer
    ensures value { result ≡ appended_answer (append_refusal state c.now out.old) (by_refusal (append_refusal state c.now out.old) state (grown state)) }
    ensures out_after { out.new ≡ by_refusal (append_refusal state c.now out.old) out.old (grown_buffer state c.now out.old) }
{
    host_builder::wotskrale_builder_append_component(state, out, c)
}

// The path is whole: its length in the buffer, from the front.
#[unsafe(no_mangle)]
pub extern "C" fn wotskrale_builder_build(state: Builder, out: &[u8]) -> BuiltAnswer
    ensures { result ≡ built_answer (unless (build_refusal state out.now) (value (declared_size state))) (kept_state (build_refusal state out.now) state) }
{
    host_builder::wotskrale_builder_build(state, out)
}
