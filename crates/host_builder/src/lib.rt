// The builder's calls for a host in another language. The host keeps the state, a struct of six numbers by value, and the buffer;
// it passes both to every call, and gets the state back with the status. Where a call is refused the buffer is as it was found
// and the state comes back equal.
//
// A slice is a pointer and then a length; limits are three numbers MCL, MCC, MPL. Nothing is required of the host but that a
// buffer is as long as it says and that the buffer to write overlaps no other. The parts come one by one, and the answers are structs of
// numbers, as a call for C passes them.
#![tactic(auto)]

ghost use Rattle.std.specs.Prelude.{◌≡◌};
ghost use Rattle.willow.specs.Answers.{outcome, unless};
ghost use Rattle.willow.specs.Refusals.{value};
ghost use Rattle.convention.specs.Exports.{limits_of};
ghost use Rattle.builder_law.specs.Building.{by_refusal, new_buffer, new_refusal, prefix_buffer, prefix_refusal};
ghost use Rattle.builder.specs.Calls.{append_refusal, build_refusal, declared_size, grown, grown_buffer, kept_state, state_of};
ghost use Rattle.host_builder.specs.BuilderExports.{appended_answer, built_answer, no_state, started_answer};

use builder::Builder;
use willow::{Limits, Refusal};

// What a start and an append return: 0 or a refusal's number, and the state; zeros for it after a refused start.
#[repr(C)]
#[derive(Clone, Copy)]
pub struct BuilderAnswer {
    pub status: u64,
    pub state: Builder,
}

// What a build returns: 0 or a refusal's number, and the length of the path; the state after a refusal, else zeros for it.
#[repr(C)]
#[derive(Clone, Copy)]
pub struct BuiltAnswer {
    pub status: u64,
    pub value: u64,
    pub state: Builder,
}

// No state: zeros, listed here since `Builder` has no default.
fn no_state() -> Builder
    ensures { result ≡ no_state }
{
    Builder {
        mcl: 0,
        mcc: 0,
        mpl: 0,
        length: 0,
        count: 0,
        appended: 0,
    }
}

// A start that may have been refused.
fn start_answer(start: Result<Builder, Refusal>) -> BuilderAnswer
    ensures { result ≡ started_answer (outcome start) }
{
    match start {
        Err(r) => BuilderAnswer {
            status: refusals::refusal_number(r),
            state: no_state(),
        },
        Ok(state) => BuilderAnswer { status: 0, state },
    }
}

// A builder for a path of a declared length and count.
pub fn wotskrale_builder_new(
    mcl: u64,
    mcc: u64,
    mpl: u64,
    length: u64,
    count: u64,
    out: &mut [u8],
) -> BuilderAnswer
    ensures value { result ≡ started_answer (unless (new_refusal (limits_of mcl mcc mpl) length count out.old) (value (state_of (limits_of mcl mcc mpl) length count 0))) }
    ensures out_after { out.new ≡ by_refusal (new_refusal (limits_of mcl mcc mpl) length count out.old) out.old (new_buffer count out.old) }
{
    start_answer(Builder::new(Limits { mcl, mcc, mpl }, length, count, out))
}

// A builder that begins with the first n components of a lent reference.
pub fn wotskrale_builder_new_from_prefix(
    mcl: u64,
    mcc: u64,
    mpl: u64,
    length: u64,
    count: u64,
    b: &[u8],
    k: u64,
    n: u64,
    out: &mut [u8],
) -> BuilderAnswer
    ensures value { result ≡ started_answer (unless (prefix_refusal (limits_of mcl mcc mpl) length count b.now k n out.old) (value (state_of (limits_of mcl mcc mpl) length count n))) }
    ensures out_after { out.new ≡ by_refusal (prefix_refusal (limits_of mcl mcc mpl) length count b.now k n out.old) out.old (prefix_buffer count b.now n out.old) }
{
    start_answer(Builder::new_from_prefix(Limits { mcl, mcc, mpl }, length, count, b, k, n, out))
}

// The next component.
pub fn wotskrale_builder_append_component(state: Builder, out: &mut [u8], c: &[u8]) -> BuilderAnswer
    ensures value { result ≡ appended_answer (append_refusal state c.now out.old) (by_refusal (append_refusal state c.now out.old) state (grown state)) }
    ensures out_after { out.new ≡ by_refusal (append_refusal state c.now out.old) out.old (grown_buffer state c.now out.old) }
{
    let (status, state) = match state.append_component(out, c) {
        Err(rejected) => (refusals::refusal_number(rejected.refusal), rejected.builder),
        Ok(grown) => (0, grown),
    };
    BuilderAnswer { status, state }
}

// The path is whole: its length in the buffer, from the front.
pub fn wotskrale_builder_build(state: Builder, out: &[u8]) -> BuiltAnswer
    ensures { result ≡ built_answer (unless (build_refusal state out.now) (value (declared_size state))) (kept_state (build_refusal state out.now) state) }
{
    match state.build(out) {
        Err(rejected) => BuiltAnswer {
            status: refusals::refusal_number(rejected.refusal),
            value: 0,
            state: rejected.builder,
        },
        Ok(n) => BuiltAnswer {
            status: 0,
            value: n,
            state: no_state(),
        },
    }
}
