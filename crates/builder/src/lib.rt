// The builder of path/builder.rs: a path of a declared length and count, put together one component at a time in a lent buffer.
// Its counts travel by value: every call takes a state, tests it against the buffer beside it, and hands a state back. So a host may
// keep it anywhere, and a state or a buffer that something else has changed is refused. Refused are 1, 5, 7, 8, 9, 10, 11, 12, 15 in
// this order; after a refusal the buffer is as it was found and the state comes back equal.
#![tactic(auto, unfolding(willow::specs::Answers::limits_refusal, builder_law::specs::Building::state_refusal, builder_law::specs::Building::new_refusal, builder_law::specs::Building::prefix_refusal, builder_law::specs::Building::append_refusal, builder_law::specs::Building::build_refusal))]

ghost use Rattle.std.specs.Prelude.{◌≡◌};
ghost use Rattle.willow.specs.Answers.{outcome, unless};
ghost use Rattle.willow.specs.Refusals.{value};
ghost use Rattle.builder_law.specs.Building.{by_refusal, new_buffer, new_refusal, prefix_buffer, prefix_refusal};
ghost use Rattle.builder.specs.Calls.{append_refusal, appended_refusal, appended_state, build_refusal, built_outcome, built_state, declared_size, grown, grown_buffer, kept_state, state_of};

mod checks;

use builder_parts::inner;
use willow::{Limits, Refusal};

// The limits, the declared length and count, and how many components are appended. Six numbers, as docs/DECISIONS.md gives the state to a
// host.
#[repr(C)]
#[derive(Clone, Copy)]
pub struct Builder {
    pub mcl: u64,
    pub mcc: u64,
    pub mpl: u64,
    pub length: u64,
    pub count: u64,
    pub appended: u64,
}

// The builder that an append or a build took, handed back, and why it is refused. The builder stands first, where `Ok` has its own: else
// each of its numbers is moved in parts, which makes an append slower (docs/DESIGN-PASS.md, "What it costs").
#[derive(Clone, Copy)]
pub struct Rejected {
    pub builder: Builder,
    pub refusal: Refusal,
}

impl Builder {
    // A state for a path of a declared length and count, of which some components are appended.
    fn with(limits: Limits, length: u64, count: u64, appended: u64) -> Builder
        ensures { result ≡ state_of limits length count appended }
    {
        Builder {
            mcl: limits.mcl,
            mcc: limits.mcc,
            mpl: limits.mpl,
            length,
            count,
            appended,
        }
    }

    // A builder for a path of a declared length and count. The count and zeros for the lengths to come are written; the bytes
    // behind them stay as they were.
    pub fn new(limits: Limits, length: u64, count: u64, out: &mut [u8]) -> Result<Builder, Refusal>
        ensures result_value { outcome result ≡ unless (new_refusal limits length count out.old) (value (state_of limits length count 0)) }
        ensures out_after { out.new ≡ by_refusal (new_refusal limits length count out.old) out.old (new_buffer count out.old) }
    {
        let start = Builder::with(limits, length, count, 0);
        start.start_test(out)?;
        inner::put_start(count, out);
        Ok(start)
    }

    // A builder that begins with the first n components of a lent reference.
    pub fn new_from_prefix(
        limits: Limits,
        length: u64,
        count: u64,
        b: &[u8],
        k: u64,
        n: u64,
        out: &mut [u8],
    ) -> Result<Builder, Refusal>
        ensures result_value { outcome result ≡ unless (prefix_refusal limits length count b.now k n out.old) (value (state_of limits length count n)) }
        ensures out_after { out.new ≡ by_refusal (prefix_refusal limits length count b.now k n out.old) out.old (prefix_buffer count b.now n out.old) }
    {
        let start = Builder::with(limits, length, count, n);
        let prefix = start.tested_prefix(b, k, out)?;
        inner::put_prefix(count, prefix, out);
        Ok(start)
    }

    // The next component. The form is the project's (document 01: "the builder is taken and handed back by every append").
    pub fn append_component(mut self, out: &mut [u8], c: &[u8]) -> Result<Builder, Rejected>
        ensures result_value { appended_refusal result ≡ append_refusal self c.now out.old }
        ensures state_after { appended_state result ≡ by_refusal (append_refusal self c.now out.old) self (grown self) }
        ensures out_after { out.new ≡ by_refusal (append_refusal self c.now out.old) out.old (grown_buffer self c.now out.old) }
    {
        self.append_test(c, out).map_err(|refusal| Rejected {
            builder: self,
            refusal,
        })?;
        inner::put_next(self.count, self.appended, c, out);
        self.appended += 1;
        Ok(self)
    }

    // The path is whole: its length in the buffer, from the front.
    #[tactic(auto, unfolding(builder_parts::specs::Buffer::size_of), using(builder_law::proofs::CallLaws::build_passed))]
    pub fn build(self, out: &[u8]) -> Result<u64, Rejected>
        ensures result_value { built_outcome result ≡ unless (build_refusal self out.now) (value (declared_size self)) }
        ensures state_after { built_state result ≡ kept_state (build_refusal self out.now) self }
    {
        self.build_test(out).map_err(|refusal| Rejected {
            builder: self,
            refusal,
        })?;
        Ok(8 + 8 * self.count + self.length)
    }
}
