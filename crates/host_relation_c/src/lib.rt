// For C: the calls of `host_relation`, as a static library. Each is the call of that name there, and promises what that promises;
// the head of `host_relation` says how its arguments are passed.
#![tactic(auto)]

ghost use Rattle.std.specs.Prelude.{◌≡◌};
ghost use Rattle.willow.specs.Answers.{on_paths};
ghost use Rattle.willow.specs.Orders.{order_number};
ghost use Rattle.relation.specs.Relation.{common_count_of, equality_of, order_of, prefixed_test_of, prefix_test_of, relatedness_of};
ghost use Rattle.convention.specs.Exports.{given, itself, limits_of, yes_number};

use convention::Answer;

// The order of two paths.
#[unsafe(no_mangle)]
pub extern "C" fn wotskrale_path_compare(
    mcl: u64,
    mcc: u64,
    mpl: u64,
    a: &[u8],
    ca: u64,
    b: &[u8],
    cb: u64,
) -> Answer
    ensures { result ≡ given order_number (on_paths (limits_of mcl mcc mpl) a.now ca b.now cb order_of) }
{
    host_relation::wotskrale_path_compare(mcl, mcc, mpl, a, ca, b, cb)
}

// Whether two paths are equal.
#[unsafe(no_mangle)]
pub extern "C" fn wotskrale_path_equal(
    mcl: u64,
    mcc: u64,
    mpl: u64,
    a: &[u8],
    ca: u64,
    b: &[u8],
    cb: u64,
) -> Answer
    ensures { result ≡ given yes_number (on_paths (limits_of mcl mcc mpl) a.now ca b.now cb equality_of) }
{
    host_relation::wotskrale_path_equal(mcl, mcc, mpl, a, ca, b, cb)
}

// Whether a is a prefix of b.
#[unsafe(no_mangle)]
pub extern "C" fn wotskrale_path_is_prefix_of(
    mcl: u64,
    mcc: u64,
    mpl: u64,
    a: &[u8],
    ca: u64,
    b: &[u8],
    cb: u64,
) -> Answer
    ensures { result ≡ given yes_number (on_paths (limits_of mcl mcc mpl) a.now ca b.now cb prefix_test_of) }
{
    host_relation::wotskrale_path_is_prefix_of(mcl, mcc, mpl, a, ca, b, cb)
}

// Whether b is a prefix of a.
#[unsafe(no_mangle)]
pub extern "C" fn wotskrale_path_is_prefixed_by(
    mcl: u64,
    mcc: u64,
    mpl: u64,
    a: &[u8],
    ca: u64,
    b: &[u8],
    cb: u64,
) -> Answer
    ensures { result ≡ given yes_number (on_paths (limits_of mcl mcc mpl) a.now ca b.now cb prefixed_test_of) }
{
    host_relation::wotskrale_path_is_prefixed_by(mcl, mcc, mpl, a, ca, b, cb)
}

// Whether one of the two is a prefix of the other.
#[unsafe(no_mangle)]
pub extern "C" fn wotskrale_path_is_related(
    mcl: u64,
    mcc: u64,
    mpl: u64,
    a: &[u8],
    ca: u64,
    b: &[u8],
    cb: u64,
) -> Answer
    ensures { result ≡ given yes_number (on_paths (limits_of mcl mcc mpl) a.now ca b.now cb relatedness_of) }
{
    host_relation::wotskrale_path_is_related(mcl, mcc, mpl, a, ca, b, cb)
}

// How many components the longest common prefix has.
#[unsafe(no_mangle)]
pub extern "C" fn wotskrale_path_longest_common_prefix(
    mcl: u64,
    mcc: u64,
    mpl: u64,
    a: &[u8],
    ca: u64,
    b: &[u8],
    cb: u64,
) -> Answer
    ensures { result ≡ given itself (on_paths (limits_of mcl mcc mpl) a.now ca b.now cb common_count_of) }
{
    host_relation::wotskrale_path_longest_common_prefix(mcl, mcc, mpl, a, ca, b, cb)
}
