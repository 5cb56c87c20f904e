// The rows of a run as comma-separated values.
ghost use Rattle.std.specs.Prelude.{◌≡◌, ◌++◌, ◌∷◌, [], length, map, IfOk, OnOk, string_bytes};
ghost use Rattle.std.specs.Io.KnownBytes.{Appends, Keeps, append_known};
ghost use Rattle.std.specs.List.{flat_map, range_with_len};
ghost use Rattle.csv.specs.Writing.{text_written};
ghost use Rattle.vm_series.specs.Csv.{IsAtRecord, csv_text, header, records_text};
ghost use Rattle.vm_series.specs.Records.{empty_text, epoch_text, head_text, name_text, piece_at, record_at, view_record};

use crate::record_pieces::{EMPTY_LINE, Line, put_head, put_view};
use crate::rows::{EpochRow, Series};
use csv::{Error, Terminator, Writer, WriterBuilder};
use std::alloc::{AllocError, Global};
use std::io::Write;
use vm_host::GuestView;

// ---- what the kit's writer writes: the header, and each name, which may need quotes

// The names of the fields.
#[tactic(auto, unfolding(crate::specs::Csv::header))]
fn write_header<W: Write + Drop>(writer: &mut Writer<W>) -> Result<(), Error>
    requires { IsAtRecord writer.old }
    ensures ready { OnOk result (IsAtRecord writer.new) }
    ensures bytes { OnOk result (Appends (text_written W.contents writer.old) (text_written W.contents writer.new)
        (records_text (header ∷ []))) }
{
    writer.write_fields(&[
        b"epoch".as_slice(),
        b"state".as_slice(),
        b"free".as_slice(),
        b"guest".as_slice(),
        b"target".as_slice(),
        b"held".as_slice(),
        b"resident".as_slice(),
        b"swapped".as_slice(),
        b"balloon".as_slice(),
        b"active".as_slice(),
        b"demand".as_slice(),
        b"blocked".as_slice(),
        b"stalled".as_slice(),
        b"evicted".as_slice(),
        b"done".as_slice(),
    ])
}

// A writer that begins where another one stands.
fn writer_over<W: Write + Drop>(inner: W) -> Writer<W>
    ensures ready { IsAtRecord result }
    ensures bytes { text_written W.contents result ≡ append_known (W.contents inner) [] }
{
    WriterBuilder::new()
        .terminator(Terminator::CRLF)
        .from_writer(inner)
}

// What a writer stands on, with all that was written.
fn finished<W: Write + Drop>(writer: Writer<W>) -> Result<W, AllocError>
    ensures { IfOk result (λ after. Keeps (text_written W.contents writer) (W.contents after)) }
{
    match writer.into_inner() {
        Ok(after) => Ok(after),
        Err(_) => Err(AllocError),
    }
}

// The header, with the end of its record.
fn header_text(alloc: Global) -> Result<Vec<u8>, AllocError>
    ensures { IfOk result (λ text. text.items ≡ records_text (header ∷ [])) }
{
    let mut writer = writer_over(Vec::new(alloc));
    let Ok(()) = write_header(&mut writer) else {
        return Err(AllocError);
    };
    finished(writer)
}

// A comma and a name, with its quotes where it needs them.
fn name_piece(alloc: Global, name: &str) -> Result<Vec<u8>, AllocError>
    ensures { IfOk result (λ piece. piece.items ≡ name_text name.now) }
{
    let mut comma = Vec::new(alloc);
    comma.push(b',')?;
    let mut writer = writer_over(comma);
    let Ok(()) = writer.write_field(name.as_bytes()) else {
        return Err(AllocError);
    };
    finished(writer)
}

// The same of each name.
fn name_pieces(alloc: Global, names: &[String]) -> Result<Vec<Vec<u8>>, AllocError>
    ensures { IfOk result (λ pieces. map (λ piece. piece.items) pieces.items ≡ map name_text (map string_bytes names.now)) }
{
    let mut pieces = Vec::new(alloc);
    for name in names {
        let piece = name_piece(alloc, name.as_str())?;
        pieces.push(piece)?;
    }
    Ok(pieces)
}

// ---- records, from pieces

fn piece_at(pieces: &[Vec<u8>], position: usize) -> &[u8]
    ensures { result.now ≡ piece_at (map (λ piece. piece.items) pieces.now) position }
{
    match pieces.get(position) {
        Some(piece) => piece.as_slice(),
        None => b",".as_slice(),
    }
}

// The guest whose view it is, if one runs.
fn push_view(
    text: &mut Vec<u8>,
    head: &[u8],
    name: &[u8],
    view: Option<GuestView>,
    line: &mut Line,
) -> Result<(), AllocError>
    ensures { OnOk result (text.new.items ≡ text.old.items ++ view_record head.now name.now view) }
{
    let Some(view) = view else {
        return Ok(());
    };
    let start = put_view(line, &view);
    text.extend_from_slice(head)?;
    text.extend_from_slice(name)?;
    text.extend_from_slice(&line[start..])
}

// The running guests of an epoch.
fn push_guests(
    text: &mut Vec<u8>,
    pieces: &[Vec<u8>],
    row: &EpochRow,
    head: &[u8],
    line: &mut Line,
) -> Result<(), AllocError>
    requires { head.now ≡ head_text row.now }
    ensures { OnOk result (text.new.items ≡ text.old.items
        ++ flat_map (record_at (map (λ piece. piece.items) pieces.now) row.now) (range_with_len 0 (length row.now.views))) }
{
    for position in 0..row.views().len() {
        let name = piece_at(pieces, position);
        push_view(text, head, name, row.view(position), line)?;
    }
    Ok(())
}

// An epoch in which no guest runs.
#[tactic(auto, unfolding(crate::specs::Records::empty_text))]
fn push_lone(text: &mut Vec<u8>, head: &[u8]) -> Result<(), AllocError>
    ensures { OnOk result (text.new.items ≡ text.old.items ++ (head.now ++ empty_text)) }
{
    text.extend_from_slice(head)?;
    text.extend_from_slice(b",,,,,,,,,,,,\r\n")
}

// An epoch.
fn push_row(
    text: &mut Vec<u8>,
    pieces: &[Vec<u8>],
    row: &EpochRow,
    line: &mut Line,
) -> Result<(), AllocError>
    ensures { OnOk result (text.new.items ≡ text.old.items ++ epoch_text (map (λ piece. piece.items) pieces.now) row.now) }
{
    let mut start_line = EMPTY_LINE;
    let start = put_head(&mut start_line, row);
    let head = &start_line[start..];
    if row.has_guests() {
        push_guests(text, pieces, row, head, line)
    } else {
        push_lone(text, head)
    }
}

// All epochs.
fn push_rows(text: &mut Vec<u8>, pieces: &[Vec<u8>], rows: &[EpochRow]) -> Result<(), AllocError>
    ensures { OnOk result (text.new.items ≡ text.old.items ++ flat_map (epoch_text (map (λ piece. piece.items) pieces.now)) rows.now) }
{
    let mut line = EMPTY_LINE;
    for row in rows {
        push_row(text, pieces, row, &mut line)?;
    }
    Ok(())
}

/// The rows as comma-separated values (RFC 4180): a header, and then for each epoch, in order, a record for each running guest, in
/// the order of the configuration, or, where none runs, one record whose fields of a guest are empty.
///
/// | Field | What it is |
/// |---|---|
/// | `epoch` | the number of the epoch, from 0 |
/// | `state` | `high`, `soft`, `hard` or `low` |
/// | `free` | free frames of the machine |
/// | `guest` | the guest's name |
/// | `target`, `held`, `resident` | frames that it is to have, that it has, and that are under a page |
/// | `swapped`, `balloon` | its pages in the swap area, and in the balloon |
/// | `active` | the active fraction of its memory, in parts of 65536 (Waldspurger, OSDI 2002, section 5.3) |
/// | `demand` | frames that it would use above its target |
/// | `blocked` | 1 where it was blocked in this epoch, else 0 |
/// | `stalled` | the page on which it stalled in this epoch, or nothing |
/// | `evicted` | pages that its touches sent to swap in this epoch, for want of a frame: its demand, where it wasn't blocked, else 0 |
/// | `done` | steps of its trace executed since it started |
///
/// All of it is as it stands after the epoch. A page and a frame have 4096 bytes.
pub fn csv_text(alloc: Global, series: &Series) -> Result<Vec<u8>, AllocError>
    ensures { IfOk result (λ text. text.items ≡ csv_text series.now) }
{
    let mut text = header_text(alloc)?;
    let pieces = name_pieces(alloc, series.names())?;
    push_rows(&mut text, pieces.as_slice(), series.rows())?;
    Ok(text)
}
