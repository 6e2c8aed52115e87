// The calls of `relation` for a host in another language: the order of two paths, equality, prefixes, and how many components
// two paths have in common.
//
// A slice is a pointer and then a length; limits are three numbers MCL, MCC, MPL. Nothing is required of the host but that a
// buffer is as long as it says. The limits come one by one, as a call for C passes them.
#![tactic(auto)]

ghost use Rattle.std.specs.Prelude.{◌≡◌};
ghost use Rattle.willow.specs.Answers.{on_paths};
ghost use Rattle.willow.specs.Orders.{order_number};
ghost use Rattle.relation.specs.Relation.{common_count_of, equality_of, order_of, prefixed_test_of, prefix_test_of, relatedness_of};
ghost use Rattle.convention.specs.Exports.{given, itself, limits_of, yes_number};

use convention::{Answer, answered};
use willow::Limits;

// The order of two paths.
pub fn wotskrale_path_compare(
    mcl: u64,
    mcc: u64,
    mpl: u64,
    a: &[u8],
    ca: u64,
    b: &[u8],
    cb: u64,
) -> Answer
    ensures { result ≡ given order_number (on_paths (limits_of mcl mcc mpl) a.now ca b.now cb order_of) }
{
    answered(relation::compare(Limits { mcl, mcc, mpl }, a, ca, b, cb))
}

// Whether two paths are equal.
pub fn wotskrale_path_equal(
    mcl: u64,
    mcc: u64,
    mpl: u64,
    a: &[u8],
    ca: u64,
    b: &[u8],
    cb: u64,
) -> Answer
    ensures { result ≡ given yes_number (on_paths (limits_of mcl mcc mpl) a.now ca b.now cb equality_of) }
{
    answered(relation::equal(Limits { mcl, mcc, mpl }, a, ca, b, cb))
}

// Whether a is a prefix of b.
pub fn wotskrale_path_is_prefix_of(
    mcl: u64,
    mcc: u64,
    mpl: u64,
    a: &[u8],
    ca: u64,
    b: &[u8],
    cb: u64,
) -> Answer
    ensures { result ≡ given yes_number (on_paths (limits_of mcl mcc mpl) a.now ca b.now cb prefix_test_of) }
{
    answered(relation::is_prefix_of(Limits { mcl, mcc, mpl }, a, ca, b, cb))
}

// Whether b is a prefix of a.
pub fn wotskrale_path_is_prefixed_by(
    mcl: u64,
    mcc: u64,
    mpl: u64,
    a: &[u8],
    ca: u64,
    b: &[u8],
    cb: u64,
) -> Answer
    ensures { result ≡ given yes_number (on_paths (limits_of mcl mcc mpl) a.now ca b.now cb prefixed_test_of) }
{
    answered(relation::is_prefixed_by(Limits { mcl, mcc, mpl }, a, ca, b, cb))
}

// Whether one of the two is a prefix of the other.
pub fn wotskrale_path_is_related(
    mcl: u64,
    mcc: u64,
    mpl: u64,
    a: &[u8],
    ca: u64,
    b: &[u8],
    cb: u64,
) -> Answer
    ensures { result ≡ given yes_number (on_paths (limits_of mcl mcc mpl) a.now ca b.now cb relatedness_of) }
{
    answered(relation::is_related(Limits { mcl, mcc, mpl }, a, ca, b, cb))
}

// How many components the longest common prefix has.
pub fn wotskrale_path_longest_common_prefix(
    mcl: u64,
    mcc: u64,
    mpl: u64,
    a: &[u8],
    ca: u64,
    b: &[u8],
    cb: u64,
) -> Answer
    ensures { result ≡ given itself (on_paths (limits_of mcl mcc mpl) a.now ca b.now cb common_count_of) }
{
    answered(relation::longest_common_prefix(Limits { mcl, mcc, mpl }, a, ca, b, cb))
}
