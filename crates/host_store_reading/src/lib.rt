// The calls of `store_reading` for a host in another language: the numbers of a store, and its entries by their position from 0. A
// slice is a pointer and then a length. Nothing is required of the host but that a buffer is as long as it says and that a buffer to
// write overlaps no other. The answers are structs of numbers, as a call for C passes them.
#![tactic(auto, using(crate::proofs::AnswerLaws::entry_given))]

ghost use Rattle.std.specs.Prelude.{◌≡◌};
ghost use Rattle.willow.specs.Answers.{optional_outcome, outcome, written_buffer, written_length};
ghost use Rattle.convention.specs.Exports.{given, itself};
ghost use Rattle.store_reading.specs.Held.{entry_read, numbers_read, packed_of};
ghost use Rattle.host_store_reading.specs.ReadingExports.{given_entry, given_held, given_numbers};

use convention::{Answer, answered_if_any};
use store_reading::{HeldEntry, StoreNumbers};
use willow::Refusal;

// The numbers of a store: 0 or 2; its limits and capacity, how many entries it holds, its namespace, and the bytes held and let go.
// Zeros behind a refusal.
#[repr(C)]
#[derive(Clone, Copy, Default)]
pub struct StoreAnswer {
    pub status: u64,
    pub mcl: u64,
    pub mcc: u64,
    pub mpl: u64,
    pub capacity: u64,
    pub count: u64,
    pub namespace: u64,
    pub held: u64,
    pub let_go: u64,
}

// An entry: 0, 2, or 255 for none; its head, and how many components its path has. Zeros unless there is one.
#[repr(C)]
#[derive(Clone, Copy, Default)]
pub struct EntryAnswer {
    pub status: u64,
    pub subspace: u64,
    pub timestamp: u64,
    pub payload_length: u64,
    pub count: u64,
    pub digest: [u8; 32],
}

// The numbers of a store, as they are answered.
fn numbers_read(n: Result<StoreNumbers, Refusal>) -> StoreAnswer
    ensures { result ≡ given_numbers (outcome n) }
{
    match n {
        Err(why) => StoreAnswer {
            status: refusals::refusal_number(why),
            ..StoreAnswer::default()
        },
        Ok(x) => StoreAnswer {
            status: 0,
            mcl: x.limits.mcl,
            mcc: x.limits.mcc,
            mpl: x.limits.mpl,
            capacity: x.capacity,
            count: x.count,
            namespace: x.namespace,
            held: x.held,
            let_go: x.let_go,
        },
    }
}

// An entry that there may not be.
impl From<Result<Option<HeldEntry>, Refusal>> for EntryAnswer {
    ghost from_gives = { λ e a. a ≡ given_held (optional_outcome e) };

    fn from(read: Result<Option<HeldEntry>, Refusal>) -> EntryAnswer {
        match convention::value_or_status(read) {
            Err(status) => EntryAnswer {
                status,
                // `default` tells of an array element by element, which the search does not make 32 zeros of.
                digest: [0; 32],
                ..EntryAnswer::default()
            },
            Ok(held) => {
                let head = held.head;
                let digest = head.digest;
                EntryAnswer {
                    status: 0,
                    subspace: head.subspace,
                    timestamp: head.timestamp,
                    payload_length: head.payload_length,
                    count: held.count,
                    digest,
                }
            }
        }
    }
}

// The numbers before a store's heads. Refuses 2.
pub fn wotskrale_store_numbers(sheet: &[u8]) -> StoreAnswer
    ensures { result ≡ given_numbers (numbers_read sheet.now) }
{
    numbers_read(store_reading::numbers(sheet))
}

// Entry i but for its path; none past the last. Refuses 2.
pub fn wotskrale_store_entry(sheet: &[u8], i: u64) -> EntryAnswer
    ensures { result ≡ given_entry (entry_read sheet.now i) }
{
    EntryAnswer::from(store_reading::entry(sheet, i))
}

// The packed path of entry i written to the front of a buffer; answers its length, none past the last. Refuses 2, then 15.
pub fn wotskrale_store_entry_path(sheet: &[u8], i: u64, out: &mut [u8]) -> Answer
    ensures value { result ≡ given itself (written_length (packed_of (entry_read sheet.now i)) out.old) }
    ensures out_after { out.new ≡ written_buffer (packed_of (entry_read sheet.now i)) out.old }
{
    answered_if_any(store_reading::write_entry_path(sheet, i, out))
}
