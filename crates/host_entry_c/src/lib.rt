// For C: the calls of `host_entry`, as a static library. Each is the call of that name there, and promises what that promises;
// the head of `host_entry` says how its arguments are passed.
#![tactic(auto)]

ghost use Rattle.std.specs.Prelude.{◌≡◌, List, ℕ};
ghost use Rattle.willow.specs.Answers.{on_paths};
ghost use Rattle.willow.specs.Entries.{compare_entries, compare_places, is_newer, prunes, same_entry};
ghost use Rattle.willow.specs.Orders.{order_number};
ghost use Rattle.willow.specs.Paths.{Path};
ghost use Rattle.willow.specs.Refusals.{value};
ghost use Rattle.convention.specs.Exports.{given, limits_of, yes_number};
ghost use Rattle.host_entry.specs.EntryExports.{entry_of};

use convention::Answer;

// Whether the first entry is newer than the second, whatever their namespaces, subspaces and paths.
#[unsafe(no_mangle)]
pub extern "C" fn wotskrale_entry_is_newer_than(
    timestamp: u64,
    payload_length: u64,
    digest: &[u8; 32],
    timestamp2: u64,
    payload_length2: u64,
    digest2: &[u8; 32],
) -> Answer
    ensures { (m n s u : ℕ) (p q : Path) → result ≡ given yes_number (value (is_newer (entry_of m s p timestamp payload_length digest.now) (entry_of n u q timestamp2 payload_length2 digest2.now))) }
{
    host_entry::wotskrale_entry_is_newer_than(
        timestamp,
        payload_length,
        digest,
        timestamp2,
        payload_length2,
        digest2,
    )
}

// Whether the first entry would be pruned by the second.
#[unsafe(no_mangle)]
pub extern "C" fn wotskrale_entry_is_pruned_by(
    mcl: u64,
    mcc: u64,
    mpl: u64,
    namespace: u64,
    subspace: u64,
    path: &[u8],
    count: u64,
    timestamp: u64,
    payload_length: u64,
    digest: &[u8; 32],
    namespace2: u64,
    subspace2: u64,
    path2: &[u8],
    count2: u64,
    timestamp2: u64,
    payload_length2: u64,
    digest2: &[u8; 32],
) -> Answer
    ensures { result ≡ given yes_number (on_paths (limits_of mcl mcc mpl) path.now count path2.now count2 (λ p q. value (prunes (entry_of namespace2 subspace2 q timestamp2 payload_length2 digest2.now) (entry_of namespace subspace p timestamp payload_length digest.now)))) }
{
    host_entry::wotskrale_entry_is_pruned_by(
        mcl,
        mcc,
        mpl,
        namespace,
        subspace,
        path,
        count,
        timestamp,
        payload_length,
        digest,
        namespace2,
        subspace2,
        path2,
        count2,
        timestamp2,
        payload_length2,
        digest2,
    )
}

// Whether the first entry prunes the second.
#[unsafe(no_mangle)]
pub extern "C" fn wotskrale_entry_prunes(
    mcl: u64,
    mcc: u64,
    mpl: u64,
    namespace: u64,
    subspace: u64,
    path: &[u8],
    count: u64,
    timestamp: u64,
    payload_length: u64,
    digest: &[u8; 32],
    namespace2: u64,
    subspace2: u64,
    path2: &[u8],
    count2: u64,
    timestamp2: u64,
    payload_length2: u64,
    digest2: &[u8; 32],
) -> Answer
    ensures { result ≡ given yes_number (on_paths (limits_of mcl mcc mpl) path.now count path2.now count2 (λ p q. value (prunes (entry_of namespace subspace p timestamp payload_length digest.now) (entry_of namespace2 subspace2 q timestamp2 payload_length2 digest2.now)))) }
{
    host_entry::wotskrale_entry_prunes(
        mcl,
        mcc,
        mpl,
        namespace,
        subspace,
        path,
        count,
        timestamp,
        payload_length,
        digest,
        namespace2,
        subspace2,
        path2,
        count2,
        timestamp2,
        payload_length2,
        digest2,
    )
}

// Whether two entries are equal in every field.
#[unsafe(no_mangle)]
pub extern "C" fn wotskrale_entry_equal(
    mcl: u64,
    mcc: u64,
    mpl: u64,
    namespace: u64,
    subspace: u64,
    path: &[u8],
    count: u64,
    timestamp: u64,
    payload_length: u64,
    digest: &[u8; 32],
    namespace2: u64,
    subspace2: u64,
    path2: &[u8],
    count2: u64,
    timestamp2: u64,
    payload_length2: u64,
    digest2: &[u8; 32],
) -> Answer
    ensures { result ≡ given yes_number (on_paths (limits_of mcl mcc mpl) path.now count path2.now count2 (λ p q. value (same_entry (entry_of namespace subspace p timestamp payload_length digest.now) (entry_of namespace2 subspace2 q timestamp2 payload_length2 digest2.now)))) }
{
    host_entry::wotskrale_entry_equal(
        mcl,
        mcc,
        mpl,
        namespace,
        subspace,
        path,
        count,
        timestamp,
        payload_length,
        digest,
        namespace2,
        subspace2,
        path2,
        count2,
        timestamp2,
        payload_length2,
        digest2,
    )
}

// The order of a store sheet: by subspace, then by path, whatever the rest.
#[unsafe(no_mangle)]
pub extern "C" fn wotskrale_entry_compare_places(
    mcl: u64,
    mcc: u64,
    mpl: u64,
    subspace: u64,
    path: &[u8],
    count: u64,
    subspace2: u64,
    path2: &[u8],
    count2: u64,
) -> Answer
    ensures { (m n t u l k : ℕ) (d e : List ℕ) → result ≡ given order_number (on_paths (limits_of mcl mcc mpl) path.now count path2.now count2 (λ p q. value (compare_places (entry_of m subspace p t l d) (entry_of n subspace2 q u k e)))) }
{
    host_entry::wotskrale_entry_compare_places(
        mcl, mcc, mpl, subspace, path, count, subspace2, path2, count2,
    )
}

// The order of entries: by namespace, subspace, path, timestamp, digest, payload length.
#[unsafe(no_mangle)]
pub extern "C" fn wotskrale_entry_compare(
    mcl: u64,
    mcc: u64,
    mpl: u64,
    namespace: u64,
    subspace: u64,
    path: &[u8],
    count: u64,
    timestamp: u64,
    payload_length: u64,
    digest: &[u8; 32],
    namespace2: u64,
    subspace2: u64,
    path2: &[u8],
    count2: u64,
    timestamp2: u64,
    payload_length2: u64,
    digest2: &[u8; 32],
) -> Answer
    ensures { result ≡ given order_number (on_paths (limits_of mcl mcc mpl) path.now count path2.now count2 (λ p q. value (compare_entries (entry_of namespace subspace p timestamp payload_length digest.now) (entry_of namespace2 subspace2 q timestamp2 payload_length2 digest2.now)))) }
{
    host_entry::wotskrale_entry_compare(
        mcl,
        mcc,
        mpl,
        namespace,
        subspace,
        path,
        count,
        timestamp,
        payload_length,
        digest,
        namespace2,
        subspace2,
        path2,
        count2,
        timestamp2,
        payload_length2,
        digest2,
    )
}
