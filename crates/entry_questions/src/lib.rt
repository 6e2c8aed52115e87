// Questions on two entries (entry.rs): newer, pruning, equality and the two orders. Calls refuse 1, then 5 for either path.
#![tactic(auto, unfolding(willow::specs::Answers::on_paths, willow::specs::Entries::same_entry))]

ghost use Rattle.std.specs.Prelude.{◌≡◌, IfErr, IfOk, ℕ};
ghost use Rattle.std.proofs.Math.Option.{none, some};
ghost use Rattle.willow.specs.Answers.{on_paths, outcome, path_in, paths_refusal};
ghost use Rattle.willow.specs.Entries.{compare_entries, compare_places, is_newer, prunes, same_entry};
ghost use Rattle.willow.specs.Paths.{Path};
ghost use Rattle.willow.specs.Refusals.{value};
ghost use Rattle.entry.specs.Heads.{entry_at};
ghost use Rattle.entry.specs.LentEntries.{entry_of};

use entry::{Head, LentEntry};
use lent_path::lend_two;
use std::cmp::Ordering;
use willow::{Limits, Refusal};

// Two entries, whose paths are lent. They come by their parts, each buffer lent with the call; a struct of namespace, head and count
// would be made only to be taken apart here.
fn lend_entries<'a, 'b>(
    limits: Limits,
    namespace: u64,
    head: Head,
    path: &'a [u8],
    count: u64,
    namespace2: u64,
    head2: Head,
    path2: &'b [u8],
    count2: u64,
) -> Result<(LentEntry<'a>, LentEntry<'b>), Refusal>
    ensures ok { IfOk result (λ es. (paths_refusal limits path.now count path2.now count2 ≡ none) × ((entry_of es.0 ≡ entry_at namespace head (path_in path.now count)) × (entry_of es.1 ≡ entry_at namespace2 head2 (path_in path2.now count2)))) }
    ensures err { IfErr result (λ r. paths_refusal limits path.now count path2.now count2 ≡ some r) }
{
    let (path, path2) = lend_two(limits, path, count, path2, count2)?;
    let entry = LentEntry {
        namespace,
        head,
        path,
    };
    let entry2 = LentEntry {
        namespace: namespace2,
        head: head2,
        path: path2,
    };
    Ok((entry, entry2))
}

// Whether an entry of the first head is newer than one of the second, whatever their namespaces and paths.
pub fn is_newer_than(head: Head, other: Head) -> Result<bool, Refusal>
    ensures { (m n : ℕ) (p q : Path) → outcome result ≡ value (is_newer (entry_at m head p) (entry_at n other q)) }
{
    Ok(head.is_newer_than(&other))
}

// Whether the first entry would be pruned by the second.
pub fn is_pruned_by(
    limits: Limits,
    namespace: u64,
    head: Head,
    path: &[u8],
    count: u64,
    namespace2: u64,
    head2: Head,
    path2: &[u8],
    count2: u64,
) -> Result<bool, Refusal>
    ensures { outcome result ≡ on_paths limits path.now count path2.now count2 (λ p q. value (prunes (entry_at namespace2 head2 q) (entry_at namespace head p))) }
{
    let (e, e2) = lend_entries(
        limits, namespace, head, path, count, namespace2, head2, path2, count2,
    )?;
    Ok(e2.prunes(&e))
}

// Whether the first entry prunes the second.
pub fn prunes(
    limits: Limits,
    namespace: u64,
    head: Head,
    path: &[u8],
    count: u64,
    namespace2: u64,
    head2: Head,
    path2: &[u8],
    count2: u64,
) -> Result<bool, Refusal>
    ensures { outcome result ≡ on_paths limits path.now count path2.now count2 (λ p q. value (prunes (entry_at namespace head p) (entry_at namespace2 head2 q))) }
{
    let (e, e2) = lend_entries(
        limits, namespace, head, path, count, namespace2, head2, path2, count2,
    )?;
    Ok(e.prunes(&e2))
}

// Whether two entries are equal in every field.
pub fn equal(
    limits: Limits,
    namespace: u64,
    head: Head,
    path: &[u8],
    count: u64,
    namespace2: u64,
    head2: Head,
    path2: &[u8],
    count2: u64,
) -> Result<bool, Refusal>
    ensures { outcome result ≡ on_paths limits path.now count path2.now count2 (λ p q. value (same_entry (entry_at namespace head p) (entry_at namespace2 head2 q))) }
{
    let (e, e2) = lend_entries(
        limits, namespace, head, path, count, namespace2, head2, path2, count2,
    )?;
    Ok(e == e2)
}

// The order of a store sheet: by subspace, then by path.
pub fn compare_places(
    limits: Limits,
    namespace: u64,
    head: Head,
    path: &[u8],
    count: u64,
    namespace2: u64,
    head2: Head,
    path2: &[u8],
    count2: u64,
) -> Result<Ordering, Refusal>
    ensures { outcome result ≡ on_paths limits path.now count path2.now count2 (λ p q. value (compare_places (entry_at namespace head p) (entry_at namespace2 head2 q))) }
{
    let (e, e2) = lend_entries(
        limits, namespace, head, path, count, namespace2, head2, path2, count2,
    )?;
    Ok(e.compare_places(&e2))
}

// The order of entries: by namespace, subspace, path, timestamp, digest, payload length.
pub fn compare(
    limits: Limits,
    namespace: u64,
    head: Head,
    path: &[u8],
    count: u64,
    namespace2: u64,
    head2: Head,
    path2: &[u8],
    count2: u64,
) -> Result<Ordering, Refusal>
    ensures { outcome result ≡ on_paths limits path.now count path2.now count2 (λ p q. value (compare_entries (entry_at namespace head p) (entry_at namespace2 head2 q))) }
{
    let (e, e2) = lend_entries(
        limits, namespace, head, path, count, namespace2, head2, path2, count2,
    )?;
    Ok(e.cmp(&e2))
}
