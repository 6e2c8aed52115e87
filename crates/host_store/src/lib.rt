// The calls of `store_making`, `store_test` and `store` for a host in another language: a store made fresh, tested, and offered to.
//
// A store is a sheet in a lent buffer; its limits, its capacity and its namespace stand in it. An entry is its namespace, its
// subspace, a packed path with its count, its timestamp, its payload length and its digest, in this order. A slice is a pointer and
// then a length, a digest a pointer to 32 bytes. Nothing is required of the host but that a buffer is as long as it says and that a
// buffer to write overlaps no other. The parts come one by one, and the answer is a struct of numbers, as a call for C passes them.
#![tactic(auto)]

ghost use Rattle.std.specs.Prelude.{◌≡◌};
ghost use Rattle.willow.specs.Answers.{written_buffer, written_length};
ghost use Rattle.willow.specs.Store.{offer};
ghost use Rattle.convention.specs.Exports.{given, itself, limits_of, refusal_status};
ghost use Rattle.store_form.specs.StoreTest.{store_refusal};
ghost use Rattle.store_law.specs.Offers.{answer_in, fresh_store, leaves_in};
ghost use Rattle.store_answers.specs.Calls.{answer_of};
ghost use Rattle.host_store.specs.StoreExports.{given_offer};

use convention::{Answer, answered, tested};
use entry::Head;
use store_answers::Offered;
use willow::{Limits, Refusal};

// What an offer is answered: 0 or a refusal's number; taken 0, outdated 1 or repeat 2; how many entries a taken offer pruned. Zeros
// behind a refusal.
#[repr(C)]
#[derive(Clone, Copy, Default)]
pub struct OfferAnswer {
    pub status: u64,
    pub answer: u64,
    pub pruned: u64,
}

// An offer's answer as numbers.
fn offered(o: Result<Offered, Refusal>) -> OfferAnswer
    ensures { result ≡ given_offer (answer_of o) }
{
    match o {
        Err(why) => OfferAnswer {
            status: refusals::refusal_number(why),
            ..OfferAnswer::default()
        },
        Ok(Offered::Outdated) => OfferAnswer {
            answer: 1,
            ..OfferAnswer::default()
        },
        Ok(Offered::Repeat) => OfferAnswer {
            answer: 2,
            ..OfferAnswer::default()
        },
        Ok(Offered::Taken(k)) => OfferAnswer {
            pruned: k,
            ..OfferAnswer::default()
        },
    }
}

// A fresh store of these sizes and this namespace written to the front of a buffer; answers its length. Refuses 1, then 15.
pub fn wotskrale_store_fresh(
    mcl: u64,
    mcc: u64,
    mpl: u64,
    capacity: u64,
    namespace: u64,
    out: &mut [u8],
) -> Answer
    ensures value { result ≡ given itself (written_length (fresh_store (record { limits = limits_of mcl mcc mpl; capacity = capacity; namespace = namespace })) out.old) }
    ensures out_after { out.new ≡ written_buffer (fresh_store (record { limits = limits_of mcl mcc mpl; capacity = capacity; namespace = namespace })) out.old }
{
    answered(store_making::fresh(Limits { mcl, mcc, mpl }, capacity, namespace, out))
}

// Whether a buffer begins with a store: 0 or 2.
pub fn wotskrale_store_test(sheet: &[u8]) -> u64
    ensures { result ≡ refusal_status (store_refusal sheet.now) }
{
    tested(store_test::test(sheet))
}

// An entry offered. Refuses 2, then 4, then 5, then 13, then 14.
pub fn wotskrale_store_offer(
    sheet: &mut [u8],
    namespace: u64,
    subspace: u64,
    path: &[u8],
    count: u64,
    timestamp: u64,
    payload_length: u64,
    digest: &[u8; 32],
) -> OfferAnswer
    ensures value { result ≡ given_offer (answer_in sheet.old (offer (record { namespace = namespace; subspace = subspace; timestamp = timestamp; payload_length = payload_length; digest = digest.now; buffer = path.now; count = count }))) }
    ensures sheet_after { sheet.new ≡ leaves_in sheet.old (offer (record { namespace = namespace; subspace = subspace; timestamp = timestamp; payload_length = payload_length; digest = digest.now; buffer = path.now; count = count })) }
{
    let head = Head::new(subspace, timestamp, payload_length, digest);
    offered(store::offer(sheet, namespace, head, path, count))
}
