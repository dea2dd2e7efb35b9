//! A decoder that lives across calls: C keeps a handle, hands it to each call and takes it back.
//! `library/c/mvt.c` answers an empty handle before it comes here.
ghost use Rattle.std.specs.Prelude.{◌≡◌, ◌≢◌, ◌≤◌, [], ◌++◌, ℕ, List, None, IsSome, IfOk, IfErr, IfSome};
ghost use Rattle.mvt_tile.specs.Streams.{IsCalm};
ghost use Rattle.mvt_tile.specs.TileRules.{fault_within};
ghost use Rattle.mvt_c.specs.Calls.{IsReported, NotShown};
ghost use Rattle.mvt_c.specs.Calls.{of_decode, status_of, status_of_failure, status_of_refusal};
ghost use Rattle.mvt_rows.specs.Decoding.{StandsFor};
ghost use Rattle.mvt_rows.specs.Lent.{table_of};
ghost use Rattle.mvt_rows.specs.Reading.{IsRead, IsReadPast};
ghost use Rattle.mvt_rows.specs.Tables.{table_size};

mod held;
pub(crate) mod parts;

use crate::fault::Fault;
use crate::refusal::{Refusal, report};
use held::{Decoder, Held};
use mvt_base::LIMIT;
use mvt_rows::{Rows, RowsDecoder, RowsVisitor, Table};
use std::alloc::Global;
use std::mem;

/// Puts a handle where C keeps it. The type says that a handle stood there; C hands over fresh
/// memory, or a handle that it has just given away, so that what stood there is neither looked at
/// nor dropped.
fn keep(held: Held, out: &mut Held)
    ensures { out.new.decoder ≡ held.decoder }
{
    mem::forget(mem::replace(out, held));
}

/// A decoder of no bytes yet, whose rows shall have at most so many bytes
/// (`mvt_decoder_new`).
#[unsafe(no_mangle)]
pub extern "C" fn mvt_held_new(alloc: Global, most: u64, out: &mut Held) -> u32
    ensures made { result ≡ 0 → StandsFor most out.new.decoder.inner [] }
    ensures fresh { result ≡ 0 → out.new.decoder.inner.0.failure ≡ None }
    ensures most { result ≡ 0 → out.new.decoder.most ≡ most }
    ensures known { result ≢ 0 → result ≡ 2 }
    ensures out_kept { result ≢ 0 → out.new ≡ out.old }
{
    let decoder = Decoder {
        inner: RowsDecoder::new(alloc, RowsVisitor::new(alloc, most)),
        most,
    };
    match Held::new(alloc, decoder) {
        Ok(held) => {
            keep(held, out);
            0
        }
        Err(_) => 2,
    }
}

/// Takes a piece of a tile (`mvt_decoder_feed`).
#[unsafe(no_mangle)]
pub extern "C" fn mvt_held_feed(
    held: Held,
    piece: &[u8],
    again: &mut Held,
    fault: &mut Fault,
) -> u32
    // The rows so far have at most so many bytes.
    ensures stands { (s : List ℕ) → StandsFor held.decoder.most held.decoder.inner s
        → StandsFor held.decoder.most again.new.decoder.inner (s ++ piece.now) }
    ensures refused { result ≡ 1 → (s : List ℕ) → StandsFor held.decoder.most held.decoder.inner s
        → IsReported (s ++ piece.now) fault.new }
    // No fault so far, but that of a field that isn't finished.
    ensures live { result ≡ 0 → (s : List ℕ) → StandsFor held.decoder.most held.decoder.inner s
        → IsCalm (fault_within LIMIT (s ++ piece.now)) }
    ensures most { again.new.decoder.most ≡ held.decoder.most }
    ensures status { result ≡ status_of_failure again.new.decoder.inner.0.failure }
    ensures sticky { IsSome held.decoder.inner.0.failure → again.new.decoder ≡ held.decoder }
    ensures few { result ≤ 2 }
    ensures fault_kept { result ≢ 1 → fault.new ≡ fault.old }
{
    let mut decoder = held.into_box();
    let answer = fed(&mut decoder.inner, piece);
    keep(Held::of_box(decoder), again);
    match answer {
        Ok(()) => 0,
        Err(refusal) => report(refusal, fault),
    }
}

fn fed(decoder: &mut RowsDecoder, piece: &[u8]) -> Result<(), Refusal>
    ensures stands { (most : ℕ) (s : List ℕ) → StandsFor most decoder.old s
        → StandsFor most decoder.new (s ++ piece.now) }
    ensures refused { IfErr result (λ refusal. (most : ℕ) (s : List ℕ)
        → StandsFor most decoder.old s
        → NotShown (s ++ piece.now) refusal) }
    ensures status { status_of result ≡ status_of_failure decoder.new.0.failure }
    ensures sticky { IsSome decoder.old.0.failure → decoder.new ≡ decoder.old }
    ensures few { IfErr result (λ refusal. status_of_refusal refusal ≤ 2) }
{
    decoder.feed(piece)?;
    Ok(())
}

/// The tile as rows, after the last piece (`mvt_decoder_finish`).
#[unsafe(no_mangle)]
pub extern "C" fn mvt_held_finish(held: Held, out: &mut Rows<'static>, fault: &mut Fault) -> u32
    ensures done { result ≡ 0 → (s : List ℕ) → StandsFor held.decoder.most held.decoder.inner s
        → IsRead s (table_of out.new) }
    ensures within { result ≡ 0 → table_size (table_of out.new) ≤ held.decoder.most }
    ensures refused { result ≡ 1 → (s : List ℕ) → StandsFor held.decoder.most held.decoder.inner s
        → IsReported s fault.new }
    // A decoder that hasn't failed wants memory for too many rows alone.
    ensures memory { result ≡ 2 → held.decoder.inner.0.failure ≡ None → (s : List ℕ)
        → StandsFor held.decoder.most held.decoder.inner s
        → IsReadPast s held.decoder.most }
    ensures kept { IfSome held.decoder.inner.0.failure
        (λ error. result ≡ status_of_refusal (of_decode error)) }
    ensures few { result ≤ 2 }
    ensures out_kept { result ≢ 0 → out.new ≡ out.old }
    ensures fault_kept { result ≢ 1 → fault.new ≡ fault.old }
{
    match finished(Box::into_inner(held.into_box())) {
        Ok(table) => {
            *out = table.leak();
            0
        }
        Err(refusal) => report(refusal, fault),
    }
}

fn finished(decoder: Decoder) -> Result<Table, Refusal>
    ensures done { IfOk result (λ table. (s : List ℕ) → StandsFor decoder.most decoder.inner s
        → IsRead s table) }
    ensures within { IfOk result (λ table. table_size table ≤ decoder.most) }
    ensures refused { IfErr result
        (λ refusal. (s : List ℕ) → StandsFor decoder.most decoder.inner s → NotShown s refusal) }
    ensures memory { status_of result ≡ 2 → decoder.inner.0.failure ≡ None → (s : List ℕ)
        → StandsFor decoder.most decoder.inner s
        → IsReadPast s decoder.most }
    ensures kept { IfSome decoder.inner.0.failure
        (λ error. status_of result ≡ status_of_refusal (of_decode error)) }
    ensures few { IfErr result (λ refusal. status_of_refusal refusal ≤ 2) }
{
    let Decoder { inner, most } = decoder;
    let table = inner.finish()?.into_table();
    if !table.is_within(most) {
        return Err(Refusal::Memory);
    }
    Ok(table)
}

/// Gives a decoder back (`mvt_decoder_free`).
#[unsafe(no_mangle)]
pub extern "C" fn mvt_held_free(held: Held) {
    drop(held);
}
