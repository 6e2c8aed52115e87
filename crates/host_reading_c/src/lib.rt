// For C: the calls of `host_reading`, as a static library. Each is the call of that name there, and promises what that promises;
// the head of `host_reading` says how its arguments are passed.
#![tactic(auto)]

ghost use Rattle.std.specs.Prelude.{◌≡◌};
ghost use Rattle.willow.specs.Answers.{on_path, path_refusal};
ghost use Rattle.lent_path.specs.LentTests.{component_refusal};
ghost use Rattle.reading.specs.Reading.{component_length_of, count_of, emptiness_of, length_of, prefix_count_of, prefix_length_of};
ghost use Rattle.convention.specs.Exports.{given, itself, limits_of, refusal_status, yes_number};

use convention::Answer;

// Whether a buffer with a count is a path: 0, 1 or 5.
#[unsafe(no_mangle)]
pub extern "C" fn wotskrale_path_test(mcl: u64, mcc: u64, mpl: u64, b: &[u8], count: u64) -> u64
    ensures { result ≡ refusal_status (path_refusal (limits_of mcl mcc mpl) b.now count) }
{
    host_reading::wotskrale_path_test(mcl, mcc, mpl, b, count)
}

// Whether bytes are a component: 0, 1 or 9.
#[unsafe(no_mangle)]
pub extern "C" fn wotskrale_component_test(mcl: u64, mcc: u64, mpl: u64, c: &[u8]) -> u64
    ensures { result ≡ refusal_status (component_refusal (limits_of mcl mcc mpl) c.now) }
{
    host_reading::wotskrale_component_test(mcl, mcc, mpl, c)
}

// How many components.
#[unsafe(no_mangle)]
pub extern "C" fn wotskrale_path_component_count(
    mcl: u64,
    mcc: u64,
    mpl: u64,
    b: &[u8],
    count: u64,
) -> Answer
    ensures { result ≡ given itself (on_path (limits_of mcl mcc mpl) b.now count count_of) }
{
    host_reading::wotskrale_path_component_count(mcl, mcc, mpl, b, count)
}

// Whether there is no component.
#[unsafe(no_mangle)]
pub extern "C" fn wotskrale_path_is_empty(
    mcl: u64,
    mcc: u64,
    mpl: u64,
    b: &[u8],
    count: u64,
) -> Answer
    ensures { result ≡ given yes_number (on_path (limits_of mcl mcc mpl) b.now count emptiness_of) }
{
    host_reading::wotskrale_path_is_empty(mcl, mcc, mpl, b, count)
}

// How many bytes in all components.
#[unsafe(no_mangle)]
pub extern "C" fn wotskrale_path_length(
    mcl: u64,
    mcc: u64,
    mpl: u64,
    b: &[u8],
    count: u64,
) -> Answer
    ensures { result ≡ given itself (on_path (limits_of mcl mcc mpl) b.now count length_of) }
{
    host_reading::wotskrale_path_length(mcl, mcc, mpl, b, count)
}

// How many bytes in the first n components.
#[unsafe(no_mangle)]
pub extern "C" fn wotskrale_path_length_of_prefix(
    mcl: u64,
    mcc: u64,
    mpl: u64,
    b: &[u8],
    count: u64,
    n: u64,
) -> Answer
    ensures { result ≡ given itself (on_path (limits_of mcl mcc mpl) b.now count (prefix_length_of n)) }
{
    host_reading::wotskrale_path_length_of_prefix(mcl, mcc, mpl, b, count, n)
}

// The count with which the same buffer is the prefix of n components.
#[unsafe(no_mangle)]
pub extern "C" fn wotskrale_path_create_prefix(
    mcl: u64,
    mcc: u64,
    mpl: u64,
    b: &[u8],
    count: u64,
    n: u64,
) -> Answer
    ensures { result ≡ given itself (on_path (limits_of mcl mcc mpl) b.now count (prefix_count_of n)) }
{
    host_reading::wotskrale_path_create_prefix(mcl, mcc, mpl, b, count, n)
}

// The length of component i.
#[unsafe(no_mangle)]
pub extern "C" fn wotskrale_path_component_length(
    mcl: u64,
    mcc: u64,
    mpl: u64,
    b: &[u8],
    count: u64,
    i: u64,
) -> Answer
    ensures { result ≡ given itself (on_path (limits_of mcl mcc mpl) b.now count (component_length_of i)) }
{
    host_reading::wotskrale_path_component_length(mcl, mcc, mpl, b, count, i)
}
