// The test of a lent path, a buffer in packed form with a count beside it, and of a component. Every call on paths begins with one of
// these tests, and each lent buffer is tested once: what passed goes on as a `LentPath`.
#![tactic(auto, unfolding(willow::specs::Answers::limits_refusal, willow::specs::Answers::path_refusal, willow::specs::Answers::paths_refusal, crate::specs::LentTests::component_refusal))]

ghost use Rattle.std.specs.Prelude.{◌≡◌, true, IfErr, IfNone, IfOk, IfSome};
ghost use Rattle.std.proofs.Math.Option.{none, some};
ghost use Rattle.willow.specs.Answers.{lent_refusal, path_refusal, paths_refusal, refusal_of};
ghost use Rattle.willow.specs.Limits.{accepted_limits};
ghost use Rattle.willow.specs.declared.Refusal.TheVariants.{BadPath};
ghost use Rattle.lent_path.specs.LentTests.{component_refusal, MadeOf};

use packed::inner;
use packed::lent::LentPath;
use willow::{Limits, Refusal};

// The buffer up to a count as a path, if it is one: packed under the limits, and the count not above the one in it.
fn lent<'a>(limits: Limits, b: &'a [u8], count: u64) -> Option<LentPath<'a>>
    requires { accepted_limits limits ≡ true }
    ensures fine { IfSome result (λ p. (lent_refusal limits b.now count ≡ none) × MadeOf p b.now count) }
    ensures bad { IfNone result (lent_refusal limits b.now count ≡ some BadPath) }
{
    if inner::well_formed(limits, b) && count <= number::read_u64(b, 0) {
        Some(LentPath {
            bytes: b,
            count: count as usize,
        })
    } else {
        None
    }
}

// A lent path, once it passed the tests: 1, then 5.
pub fn lend<'a>(limits: Limits, b: &'a [u8], count: u64) -> Result<LentPath<'a>, Refusal>
    ensures ok { IfOk result (λ p. (path_refusal limits b.now count ≡ none) × MadeOf p b.now count) }
    ensures err { IfErr result (λ r. path_refusal limits b.now count ≡ some r) }
{
    refusals::test_limits(limits)?;
    lent(limits, b, count).ok_or(Refusal::BadPath)
}

// Two lent paths: 1, then 5 for either.
pub fn lend_two<'a, 'b>(
    limits: Limits,
    a: &'a [u8],
    ca: u64,
    b: &'b [u8],
    cb: u64,
) -> Result<(LentPath<'a>, LentPath<'b>), Refusal>
    ensures ok { IfOk result (λ ps. (paths_refusal limits a.now ca b.now cb ≡ none) × (MadeOf ps.0 a.now ca × MadeOf ps.1 b.now cb)) }
    ensures err { IfErr result (λ r. paths_refusal limits a.now ca b.now cb ≡ some r) }
{
    let p = lend(limits, a, ca)?;
    let q = lent(limits, b, cb).ok_or(Refusal::BadPath)?;
    Ok((p, q))
}

// The test of a lent path alone.
pub fn test(limits: Limits, b: &[u8], count: u64) -> Result<(), Refusal>
    ensures { refusal_of result ≡ path_refusal limits b.now count }
{
    lend(limits, b, count)?;
    Ok(())
}

// The test of two lent paths alone. For a host that tests two paths before it asks of them.
pub fn test_two(limits: Limits, a: &[u8], ca: u64, b: &[u8], cb: u64) -> Result<(), Refusal>
    ensures { refusal_of result ≡ paths_refusal limits a.now ca b.now cb }
{
    lend_two(limits, a, ca, b, cb)?;
    Ok(())
}

// `Component::new`: whether a component is within MCL; 1, then 9.
pub fn test_component(limits: Limits, c: &[u8]) -> Result<(), Refusal>
    ensures { refusal_of result ≡ component_refusal limits c.now }
{
    refusals::test_limits(limits)?;
    if c.len() as u64 <= limits.mcl {
        Ok(())
    } else {
        Err(Refusal::ComponentTooLong)
    }
}
