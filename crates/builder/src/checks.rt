// What a builder's calls test before they write, each test by the state's numbers and the buffer beside it. They are not open to a
// caller; each but `known_length` and `is_short` may be asked of any state.

ghost use Rattle.std.proofs.Math.Option.{none, some};
ghost use Rattle.std.specs.Prelude.{◌≡◌, IfErr, IfOk};
ghost use Rattle.willow.specs.Answers.{path_in, refusal_of};
ghost use Rattle.packed.specs.LentPaths.{path_of};
ghost use Rattle.builder_law.specs.Building.{append_refusal, buffer_refusal, build_refusal, declared_refusal, known_length, length_short, limits_of, long_enough, new_refusal, overfilled, prefix_refusal, room_refusal, state_refusal};
ghost use Rattle.builder.specs.Calls.{state_in};

use crate::Builder;
use builder_parts::inner;
use lent_path::lend;
use packed::lent::LentPath;
use willow::{Limits, Refusal};

impl Builder {
    // The limits, as other calls take them.
    fn limits(&self) -> Limits
        ensures { result ≡ limits_of (state_in self.now) }
    {
        Limits {
            mcl: self.mcl,
            mcc: self.mcc,
            mpl: self.mpl,
        }
    }

    // Whether a buffer is long enough for the declared path.
    fn has_room(&self, out: &[u8]) -> bool
        ensures { result ≡ long_enough (state_in self.now) out.now }
    {
        inner::long_enough(self.length, self.count, out)
    }

    // Refuses 5: a buffer that is long enough has to agree with the counts.
    fn buffer_test(&self, out: &[u8]) -> Result<(), Refusal>
        ensures { refusal_of result ≡ buffer_refusal (state_in self.now) out.now }
    {
        if self.has_room(out)
            && !inner::agrees(self.mcl, self.length, self.count, self.appended, out)
        {
            return Err(Refusal::BadPath);
        }
        Ok(())
    }

    // Refuses 7 and 8, of the declared sizes.
    fn declared_test(&self) -> Result<(), Refusal>
        ensures { refusal_of result ≡ declared_refusal (state_in self.now) }
    {
        if self.mpl < self.length {
            return Err(Refusal::PathTooLong);
        }
        if self.mcc < self.count {
            return Err(Refusal::TooManyComponents);
        }
        Ok(())
    }

    // Refuses 11, of so many components and bytes in all.
    fn filling_test(&self, components: u128, bytes: u128) -> Result<(), Refusal>
        ensures { refusal_of result ≡ overfilled (state_in self.now) 0 0 components bytes }
    {
        if u128::from(self.count) < components || u128::from(self.length) < bytes {
            return Err(Refusal::Overfilled);
        }
        Ok(())
    }

    // Refuses 15.
    fn room_test(&self, out: &[u8]) -> Result<(), Refusal>
        ensures { refusal_of result ≡ room_refusal (state_in self.now) out.now }
    {
        if !self.has_room(out) {
            return Err(Refusal::OutTooSmall);
        }
        Ok(())
    }

    // Refuses 1, 5, 7, 8: what every call tests of a state and the buffer beside it.
    fn state_test(&self, out: &[u8]) -> Result<(), Refusal>
        ensures { refusal_of result ≡ state_refusal (state_in self.now) out.now }
    {
        refusals::test_limits(self.limits())?;
        self.buffer_test(out)?;
        self.declared_test()
    }

    // How many bytes are known to be appended to a state that passed: none, where the buffer is too short to be read.
    #[tactic(auto, unfolding(builder_law::specs::Building::known_length))]
    fn known_length(&self, out: &[u8]) -> u64
        requires { state_refusal (state_in self.now) out.now ≡ none }
        ensures { result ≡ known_length (state_in self.now) out.now }
    {
        if self.has_room(out) {
            packed::inner::length_before(out, self.appended as usize) as u64
        } else {
            0
        }
    }

    // Whether a state that passed has fewer bytes than were declared: where the buffer is too short to be read, nothing appended.
    #[tactic(auto, unfolding(builder_law::specs::Building::length_short, builder_law::specs::Building::known_length))]
    fn is_short(&self, out: &[u8]) -> bool
        requires { state_refusal (state_in self.now) out.now ≡ none }
        ensures { result ≡ length_short (state_in self.now) out.now }
    {
        if self.has_room(out) {
            self.known_length(out) < self.length
        } else {
            self.appended == 0 && 0 < self.length
        }
    }

    // The tests of a start: 1, 7, 8, 15.
    pub(crate) fn start_test(&self, out: &[u8]) -> Result<(), Refusal>
        ensures { refusal_of result ≡ new_refusal (limits_of (state_in self.now)) self.now.length self.now.count out.now }
    {
        refusals::test_limits(self.limits())?;
        self.declared_test()?;
        self.room_test(out)
    }

    // The first components of a lent reference, as many as the state says, where a start from them is not refused: 1, 5, 7, 8, 10, 11, 15.
    pub(crate) fn tested_prefix<'b>(
        &self,
        b: &'b [u8],
        k: u64,
        out: &[u8],
    ) -> Result<LentPath<'b>, Refusal>
        ensures ok { IfOk result (λ p. (prefix_refusal (limits_of (state_in self.now)) self.now.length self.now.count b.now k self.now.appended out.now ≡ none) × (path_of p ≡ path_in b.now self.now.appended)) }
        ensures err { IfErr result (λ r. prefix_refusal (limits_of (state_in self.now)) self.now.length self.now.count b.now k self.now.appended out.now ≡ some r) }
    {
        let reference = lend(self.limits(), b, k)?;
        self.declared_test()?;
        if k < self.appended {
            return Err(Refusal::NoSuchPrefix);
        }
        let prefix = reference.prefix(self.appended as usize);
        self.filling_test(u128::from(self.appended), prefix.path_length() as u128)?;
        self.room_test(out)?;
        Ok(prefix)
    }

    // The tests of an append: behind those of the state 9, 11, 15.
    pub(crate) fn append_test(&self, c: &[u8], out: &[u8]) -> Result<(), Refusal>
        ensures { refusal_of result ≡ append_refusal (state_in self.now) c.now out.now }
    {
        self.state_test(out)?;
        if self.mcl < c.len() as u64 {
            return Err(Refusal::ComponentTooLong);
        }
        let bytes = u128::from(self.known_length(out)) + c.len() as u128;
        self.filling_test(u128::from(self.appended) + 1, bytes)?;
        self.room_test(out)
    }

    // The tests of a build: behind those of the state 12, 15.
    pub(crate) fn build_test(&self, out: &[u8]) -> Result<(), Refusal>
        ensures { refusal_of result ≡ build_refusal (state_in self.now) out.now }
    {
        self.state_test(out)?;
        if self.appended < self.count || self.is_short(out) {
            return Err(Refusal::Unfinished);
        }
        self.room_test(out)
    }
}
