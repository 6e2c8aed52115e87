// The calls of `reading` and the tests of `lent_path` for a host in another language: whether a buffer is a path or a component, and how
// many components and bytes a path and its parts have.
//
// A slice is a pointer and then a length; limits are three numbers MCL, MCC, MPL. Nothing is required of the host but that a
// buffer is as long as it says. The limits come one by one, as a call for C passes them.
#![tactic(auto)]

ghost use Rattle.std.specs.Prelude.{◌≡◌};
ghost use Rattle.willow.specs.Answers.{on_path, path_refusal};
ghost use Rattle.lent_path.specs.LentTests.{component_refusal};
ghost use Rattle.reading.specs.Reading.{component_length_of, count_of, emptiness_of, length_of, prefix_count_of, prefix_length_of};
ghost use Rattle.convention.specs.Exports.{given, itself, limits_of, refusal_status, yes_number};

use convention::{Answer, answered, answered_if_any, tested};
use willow::Limits;

// Whether a buffer with a count is a path: 0, 1 or 5.
pub fn wotskrale_path_test(mcl: u64, mcc: u64, mpl: u64, b: &[u8], count: u64) -> u64
    ensures { result ≡ refusal_status (path_refusal (limits_of mcl mcc mpl) b.now count) }
{
    tested(lent_path::test(Limits { mcl, mcc, mpl }, b, count))
}

// Whether bytes are a component: 0, 1 or 9.
pub fn wotskrale_component_test(mcl: u64, mcc: u64, mpl: u64, c: &[u8]) -> u64
    ensures { result ≡ refusal_status (component_refusal (limits_of mcl mcc mpl) c.now) }
{
    tested(lent_path::test_component(Limits { mcl, mcc, mpl }, c))
}

// How many components.
pub fn wotskrale_path_component_count(mcl: u64, mcc: u64, mpl: u64, b: &[u8], count: u64) -> Answer
    ensures { result ≡ given itself (on_path (limits_of mcl mcc mpl) b.now count count_of) }
{
    answered(reading::component_count(Limits { mcl, mcc, mpl }, b, count))
}

// Whether there is no component.
pub fn wotskrale_path_is_empty(mcl: u64, mcc: u64, mpl: u64, b: &[u8], count: u64) -> Answer
    ensures { result ≡ given yes_number (on_path (limits_of mcl mcc mpl) b.now count emptiness_of) }
{
    answered(reading::is_empty(Limits { mcl, mcc, mpl }, b, count))
}

// How many bytes in all components.
pub fn wotskrale_path_length(mcl: u64, mcc: u64, mpl: u64, b: &[u8], count: u64) -> Answer
    ensures { result ≡ given itself (on_path (limits_of mcl mcc mpl) b.now count length_of) }
{
    answered(reading::path_length(Limits { mcl, mcc, mpl }, b, count))
}

// How many bytes in the first n components.
pub fn wotskrale_path_length_of_prefix(
    mcl: u64,
    mcc: u64,
    mpl: u64,
    b: &[u8],
    count: u64,
    n: u64,
) -> Answer
    ensures { result ≡ given itself (on_path (limits_of mcl mcc mpl) b.now count (prefix_length_of n)) }
{
    answered_if_any(reading::path_length_of_prefix(Limits { mcl, mcc, mpl }, b, count, n))
}

// The count with which the same buffer is the prefix of n components.
pub fn wotskrale_path_create_prefix(
    mcl: u64,
    mcc: u64,
    mpl: u64,
    b: &[u8],
    count: u64,
    n: u64,
) -> Answer
    ensures { result ≡ given itself (on_path (limits_of mcl mcc mpl) b.now count (prefix_count_of n)) }
{
    answered_if_any(reading::create_prefix(Limits { mcl, mcc, mpl }, b, count, n))
}

// The length of component i.
pub fn wotskrale_path_component_length(
    mcl: u64,
    mcc: u64,
    mpl: u64,
    b: &[u8],
    count: u64,
    i: u64,
) -> Answer
    ensures { result ≡ given itself (on_path (limits_of mcl mcc mpl) b.now count (component_length_of i)) }
{
    answered_if_any(reading::component_length(Limits { mcl, mcc, mpl }, b, count, i))
}
