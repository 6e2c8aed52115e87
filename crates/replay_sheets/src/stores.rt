// The calls on stores, with the store that is kept.

use crate::each;
use host_store::{OfferAnswer, wotskrale_store_fresh, wotskrale_store_offer, wotskrale_store_test};
use host_store_reading::{
    StoreAnswer, wotskrale_store_entry, wotskrale_store_entry_path, wotskrale_store_numbers,
};
use replay_cases::inner::answers::Row;
use replay_cases::inner::forms::Line;
use replay_cases::inner::kept::Sheet;
use replay_cases::inner::{answers, kept};
use std::io::Stdout;

fn fresh(to: &Stdout, line: Line<'_>, store: &mut Sheet) -> Option<()> {
    let c = line.read(b"nnnnn")?;
    let a = wotskrale_store_fresh(c.n[0], c.n[1], c.n[2], c.n[3], c.n[4], store);
    answers::print_with(to, a, store);
    Some(())
}

// Answers as rows. They are no `From`, since an impl names a type of its own crate, and both of these are others'.
fn offer_row(a: OfferAnswer) -> Row<3> {
    Row([a.status, a.answer, a.pruned])
}

fn offer(to: &Stdout, line: Line<'_>, store: &mut Sheet) -> Option<()> {
    let c = line.read(b"nnbnnnd")?;
    let digest = c.d[0];
    let a = wotskrale_store_offer(
        store, c.n[0], c.n[1], &c.b[0], c.n[2], c.n[3], c.n[4], &digest,
    );
    answers::print_with(to, offer_row(a), store);
    Some(())
}

fn store_row(a: StoreAnswer) -> Row<9> {
    Row([
        a.status,
        a.mcl,
        a.mcc,
        a.mpl,
        a.capacity,
        a.count,
        a.namespace,
        a.held,
        a.let_go,
    ])
}

fn entry(to: &Stdout, line: Line<'_>, store: &Sheet) -> Option<()> {
    let a = wotskrale_store_entry(store, line.read(b"n")?.n[0]);
    let x = Row([a.status, a.subspace, a.timestamp, a.payload_length, a.count]);
    answers::print_with(to, x, &a.digest);
    Some(())
}

// Makes the call, and prints its answer.
pub(crate) fn replay(to: &Stdout, line: Line<'_>, store: &mut Sheet) -> Option<()> {
    match line.name {
        "store_fresh" => fresh(to, line, store),
        "store_offer" => offer(to, line, store),
        "store_test_each" => each::replay(to, line, store, wotskrale_store_test),
        "store_test" => line.ask(to, b"", |_| wotskrale_store_test(store)),
        "store_numbers" => line.ask(to, b"", |_| store_row(wotskrale_store_numbers(store))),
        "store_entry" => entry(to, line, store),
        "store_entry_path" => line.write(to, b"no", |c, out| {
            wotskrale_store_entry_path(store, c.n[0], out)
        }),
        _ => kept::keep(line, store),
    }
}
