// The calls of `entry_questions` for a host in another language: newer, pruning, equality and the two orders of entries.
//
// A slice is a pointer and then a length, a digest a pointer to 32 bytes; limits are three numbers MCL, MCC, MPL. An entry is
// its namespace, its subspace, a path with its count, its timestamp, its payload length and its digest, in this order; a call
// leaves out what plays no part in it. Nothing is required of the host but that a buffer is as long as it says. The parts come one by
// one, as a call for C passes them.
#![tactic(auto)]

ghost use Rattle.std.specs.Prelude.{◌≡◌, List, ℕ};
ghost use Rattle.willow.specs.Answers.{on_paths};
ghost use Rattle.willow.specs.Entries.{compare_entries, compare_places, is_newer, prunes, same_entry};
ghost use Rattle.willow.specs.Orders.{order_number};
ghost use Rattle.willow.specs.Paths.{Path};
ghost use Rattle.willow.specs.Refusals.{value};
ghost use Rattle.convention.specs.Exports.{given, limits_of, yes_number};
ghost use Rattle.host_entry.specs.EntryExports.{entry_of};

use convention::{Answer, answered};
use entry::Head;
use entry_questions::{compare, compare_places, equal, is_newer_than, is_pruned_by, prunes};
use willow::Limits;

// Whether the first entry is newer than the second, whatever their namespaces, subspaces and paths.
pub fn wotskrale_entry_is_newer_than(
    timestamp: u64,
    payload_length: u64,
    digest: &[u8; 32],
    timestamp2: u64,
    payload_length2: u64,
    digest2: &[u8; 32],
) -> Answer
    ensures { (m n s u : ℕ) (p q : Path) → result ≡ given yes_number (value (is_newer (entry_of m s p timestamp payload_length digest.now) (entry_of n u q timestamp2 payload_length2 digest2.now))) }
{
    let head = Head::new(0, timestamp, payload_length, digest);
    let head2 = Head::new(0, timestamp2, payload_length2, digest2);
    answered(is_newer_than(head, head2))
}

// Whether the first entry would be pruned by the second.
pub fn wotskrale_entry_is_pruned_by(
    mcl: u64,
    mcc: u64,
    mpl: u64,
    namespace: u64,
    subspace: u64,
    path: &[u8],
    count: u64,
    timestamp: u64,
    payload_length: u64,
    digest: &[u8; 32],
    namespace2: u64,
    subspace2: u64,
    path2: &[u8],
    count2: u64,
    timestamp2: u64,
    payload_length2: u64,
    digest2: &[u8; 32],
) -> Answer
    ensures { result ≡ given yes_number (on_paths (limits_of mcl mcc mpl) path.now count path2.now count2 (λ p q. value (prunes (entry_of namespace2 subspace2 q timestamp2 payload_length2 digest2.now) (entry_of namespace subspace p timestamp payload_length digest.now)))) }
{
    let head = Head::new(subspace, timestamp, payload_length, digest);
    let head2 = Head::new(subspace2, timestamp2, payload_length2, digest2);
    let limits = Limits { mcl, mcc, mpl };
    answered(is_pruned_by(
        limits, namespace, head, path, count, namespace2, head2, path2, count2,
    ))
}

// Whether the first entry prunes the second.
pub fn wotskrale_entry_prunes(
    mcl: u64,
    mcc: u64,
    mpl: u64,
    namespace: u64,
    subspace: u64,
    path: &[u8],
    count: u64,
    timestamp: u64,
    payload_length: u64,
    digest: &[u8; 32],
    namespace2: u64,
    subspace2: u64,
    path2: &[u8],
    count2: u64,
    timestamp2: u64,
    payload_length2: u64,
    digest2: &[u8; 32],
) -> Answer
    ensures { result ≡ given yes_number (on_paths (limits_of mcl mcc mpl) path.now count path2.now count2 (λ p q. value (prunes (entry_of namespace subspace p timestamp payload_length digest.now) (entry_of namespace2 subspace2 q timestamp2 payload_length2 digest2.now)))) }
{
    let head = Head::new(subspace, timestamp, payload_length, digest);
    let head2 = Head::new(subspace2, timestamp2, payload_length2, digest2);
    let limits = Limits { mcl, mcc, mpl };
    answered(prunes(
        limits, namespace, head, path, count, namespace2, head2, path2, count2,
    ))
}

// Whether two entries are equal in every field.
pub fn wotskrale_entry_equal(
    mcl: u64,
    mcc: u64,
    mpl: u64,
    namespace: u64,
    subspace: u64,
    path: &[u8],
    count: u64,
    timestamp: u64,
    payload_length: u64,
    digest: &[u8; 32],
    namespace2: u64,
    subspace2: u64,
    path2: &[u8],
    count2: u64,
    timestamp2: u64,
    payload_length2: u64,
    digest2: &[u8; 32],
) -> Answer
    ensures { result ≡ given yes_number (on_paths (limits_of mcl mcc mpl) path.now count path2.now count2 (λ p q. value (same_entry (entry_of namespace subspace p timestamp payload_length digest.now) (entry_of namespace2 subspace2 q timestamp2 payload_length2 digest2.now)))) }
{
    let head = Head::new(subspace, timestamp, payload_length, digest);
    let head2 = Head::new(subspace2, timestamp2, payload_length2, digest2);
    let limits = Limits { mcl, mcc, mpl };
    answered(equal(
        limits, namespace, head, path, count, namespace2, head2, path2, count2,
    ))
}

// The order of a store sheet: by subspace, then by path, whatever the rest.
pub fn wotskrale_entry_compare_places(
    mcl: u64,
    mcc: u64,
    mpl: u64,
    subspace: u64,
    path: &[u8],
    count: u64,
    subspace2: u64,
    path2: &[u8],
    count2: u64,
) -> Answer
    ensures { (m n t u l k : ℕ) (d e : List ℕ) → result ≡ given order_number (on_paths (limits_of mcl mcc mpl) path.now count path2.now count2 (λ p q. value (compare_places (entry_of m subspace p t l d) (entry_of n subspace2 q u k e)))) }
{
    let digest = [0; 32];
    let head = Head::new(subspace, 0, 0, &digest);
    let head2 = Head::new(subspace2, 0, 0, &digest);
    let limits = Limits { mcl, mcc, mpl };
    answered(compare_places(limits, 0, head, path, count, 0, head2, path2, count2))
}

// The order of entries: by namespace, subspace, path, timestamp, digest, payload length.
pub fn wotskrale_entry_compare(
    mcl: u64,
    mcc: u64,
    mpl: u64,
    namespace: u64,
    subspace: u64,
    path: &[u8],
    count: u64,
    timestamp: u64,
    payload_length: u64,
    digest: &[u8; 32],
    namespace2: u64,
    subspace2: u64,
    path2: &[u8],
    count2: u64,
    timestamp2: u64,
    payload_length2: u64,
    digest2: &[u8; 32],
) -> Answer
    ensures { result ≡ given order_number (on_paths (limits_of mcl mcc mpl) path.now count path2.now count2 (λ p q. value (compare_entries (entry_of namespace subspace p timestamp payload_length digest.now) (entry_of namespace2 subspace2 q timestamp2 payload_length2 digest2.now)))) }
{
    let head = Head::new(subspace, timestamp, payload_length, digest);
    let head2 = Head::new(subspace2, timestamp2, payload_length2, digest2);
    let limits = Limits { mcl, mcc, mpl };
    answered(compare(
        limits, namespace, head, path, count, namespace2, head2, path2, count2,
    ))
}
