// For C: the calls of `host_store`, as a static library. Each is the call of that name there, and promises what that promises;
// the head of `host_store` says how its arguments are passed.
#![tactic(auto)]

ghost use Rattle.std.specs.Prelude.{◌≡◌};
ghost use Rattle.willow.specs.Answers.{written_buffer, written_length};
ghost use Rattle.willow.specs.Store.{offer};
ghost use Rattle.convention.specs.Exports.{given, itself, limits_of, refusal_status};
ghost use Rattle.store_form.specs.StoreTest.{store_refusal};
ghost use Rattle.store_law.specs.Offers.{answer_in, fresh_store, leaves_in};
ghost use Rattle.host_store.specs.StoreExports.{given_offer};

use convention::Answer;
use host_store::OfferAnswer;

// A fresh store of these sizes and this namespace written to the front of a buffer; answers its length. Refuses 1, then 15.
#[unsafe(no_mangle)]
pub extern "C" fn wotskrale_store_fresh(
    mcl: u64,
    mcc: u64,
    mpl: u64,
    capacity: u64,
    namespace: u64,
    out: &mut [u8],
) -> Answer
    ensures value { result ≡ given itself (written_length (fresh_store (record { limits = limits_of mcl mcc mpl; capacity = capacity; namespace = namespace })) out.old) }
    ensures out_after { out.new ≡ written_buffer (fresh_store (record { limits = limits_of mcl mcc mpl; capacity = capacity; namespace = namespace })) out.old }
{
    host_store::wotskrale_store_fresh(mcl, mcc, mpl, capacity, namespace, out)
}

// Whether a buffer begins with a store: 0 or 2.
#[unsafe(no_mangle)]
pub extern "C" fn wotskrale_store_test(sheet: &[u8]) -> u64
    ensures { result ≡ refusal_status (store_refusal sheet.now) }
{
    host_store::wotskrale_store_test(sheet)
}

// An entry offered. Refuses 2, then 4, then 5, then 13, then 14.
#[unsafe(no_mangle)]
pub extern "C" fn wotskrale_store_offer(
    sheet: &mut [u8],
    namespace: u64,
    subspace: u64,
    path: &[u8],
    count: u64,
    timestamp: u64,
    payload_length: u64,
    digest: &[u8; 32],
) -> OfferAnswer
    ensures value { result ≡ given_offer (answer_in sheet.old (offer (record { namespace = namespace; subspace = subspace; timestamp = timestamp; payload_length = payload_length; digest = digest.now; buffer = path.now; count = count }))) }
    ensures sheet_after { sheet.new ≡ leaves_in sheet.old (offer (record { namespace = namespace; subspace = subspace; timestamp = timestamp; payload_length = payload_length; digest = digest.now; buffer = path.now; count = count })) }
{
    host_store::wotskrale_store_offer(
        sheet,
        namespace,
        subspace,
        path,
        count,
        timestamp,
        payload_length,
        digest,
    )
}
