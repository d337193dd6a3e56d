// The tagged fields of an invoice: what they hold, and how they are made.
ghost use Rattle.std.specs.Prelude.{◌≡◌, length};
ghost use Rattle.c_answer.specs.Results.{size_of, value_of};
ghost use Rattle.c_invoice.specs.Invoices.{entry_of};
ghost use Rattle.field_writer.specs.Field.{making_bytes, making_number};
ghost use Rattle.invoice_content.specs.Content.{bytes_at, number_at, route_size, key_in, hop_in, route_entry};
ghost use Rattle.answer.specs.Answer.{mapped, filled};

use c_answer::{Size, Value};
use c_invoice::fields::Entry;

// Writes the whole bytes of a field at the front of `out`: 16, 34, 12.
#[unsafe(no_mangle)]
pub extern "C" fn tockplover_invoice_field_bytes(
    groups: &[u8],
    start: u64,
    size: u64,
    out: &mut [u8],
) -> Size
    ensures value { result ≡ size_of (mapped length (bytes_at groups.now start size (length out.old))) }
    ensures out_after { out.new ≡ filled (bytes_at groups.now start size (length out.old)) out.old }
{
    invoice_content::bytes(groups, start, size, out).into()
}

// The number that a field spells: 16, 34, 38.
#[unsafe(no_mangle)]
pub extern "C" fn tockplover_invoice_field_number(groups: &[u8], start: u64, size: u64) -> Value
    ensures { result ≡ value_of (number_at groups.now start size) }
{
    invoice_content::number(groups, start, size).into()
}

// How many entries a field has, 0 where it is no usable r: 16, 34.
#[unsafe(no_mangle)]
pub extern "C" fn tockplover_invoice_route_size(
    groups: &[u8],
    kind: u64,
    start: u64,
    size: u64,
) -> Value
    ensures { result ≡ value_of (route_size groups.now kind start size) }
{
    invoice_content::route_size(groups, kind, start, size).into()
}

// Entry k of a field, its key at the front of `key`: 16, 34, 12.
#[unsafe(no_mangle)]
pub extern "C" fn tockplover_invoice_route_entry(
    groups: &[u8],
    kind: u64,
    start: u64,
    size: u64,
    k: u64,
    key: &mut [u8],
) -> Entry
    ensures value { result ≡ entry_of (mapped hop_in (route_entry groups.now kind start size k (length key.old))) }
    ensures key_after { key.new ≡ filled (mapped key_in (route_entry groups.now kind start size k (length key.old))) key.old }
{
    invoice_content::route_entry(groups, kind, start, size, k, key).into()
}

// Writes a field of bytes, as groups, at the front of `out`: 34, 38, 12.
#[unsafe(no_mangle)]
pub extern "C" fn tockplover_invoice_field_from_bytes(
    kind: u8,
    bytes: &[u8],
    out: &mut [u8],
) -> Size
    ensures value { result ≡ size_of (mapped length (making_bytes kind bytes.now (length out.old))) }
    ensures out_after { out.new ≡ filled (making_bytes kind bytes.now (length out.old)) out.old }
{
    field_writer::from_bytes(kind, bytes, out).into()
}

// Writes a field of a number, as groups, at the front of `out`: 34, 38, 12.
#[unsafe(no_mangle)]
pub extern "C" fn tockplover_invoice_field_from_number(
    kind: u8,
    number: u64,
    out: &mut [u8],
) -> Size
    ensures value { result ≡ size_of (mapped length (making_number kind number (length out.old))) }
    ensures out_after { out.new ≡ filled (making_number kind number (length out.old)) out.old }
{
    field_writer::from_number(kind, number, out).into()
}
