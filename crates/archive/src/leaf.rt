// One leaf of the archive.
ghost use Rattle.std.specs.Prelude.{◌≡◌, false, [], ◌∷◌, length};
ghost use Rattle.std.specs.List.{flat_map};
ghost use Rattle.encoding.specs.Outputs.{put_bytes};
ghost use Rattle.archive.specs.Leaves.{leaf_writes, row_leaf, lacks_write};
ghost use Rattle.history.specs.Layout.{coding, leaf_frame, read_bytes, write_bytes, leaf_bytes};
ghost use Rattle.ledger.specs.View.{row_view};

use crate::frame::Frame;
use crate::size::leaf_size;
use encoding::cursor::Cursor;
use ledger::job::{JobKind, Read, Row, Write};
use shelves::shelf::Shelf;
use values::value::Value;

// The most bytes that a value of any kind has.
const MOST_WIDTH: usize = 32;

// The number of the kind of a leaf's frame.
fn frame_kind(kind: JobKind) -> u16
    ensures { result ≡ leaf_frame kind }
{
    match kind {
        JobKind::Amendment => Frame::Amendment as u16,
        JobKind::Inspection => Frame::Inspection as u16,
    }
}

fn put_value<V: Value>(value: V, cursor: &mut Cursor<'_>)
    ensures { cursor.new ≡ put_bytes (V.Value.bytes value) cursor.old }
{
    let mut memory = [0u8; MOST_WIDTH];
    let width = V::WIDTH;
    value.encode(&mut memory[..width]);
    cursor.put_all(&memory[..width]);
}

fn put_read(read: &Read, cursor: &mut Cursor<'_>)
    ensures { cursor.new ≡ put_bytes (read_bytes read.now) cursor.old }
{
    cursor.put(read.record);
    cursor.put(read.version);
}

fn put_reads(reads: &[Read], cursor: &mut Cursor<'_>)
    ensures { cursor.new ≡ put_bytes (flat_map read_bytes reads.now) cursor.old }
{
    for read in reads {
        put_read(read, cursor);
    }
}

// A write with its value; one that the shelf lacks is left out.
fn put_write<S: Shelf>(write: &Write, shelf: &S, cursor: &mut Cursor<'_>)
    ensures { cursor.new ≡ put_bytes (flat_map (write_bytes (coding S.Value.Value)) (leaf_writes (S.items shelf.now) (write.now ∷ []))) cursor.old }
{
    if let Ok(value) = shelf.fetch(write.place) {
        cursor.put(write.record);
        cursor.put(write.version);
        put_value(value, cursor);
    }
}

fn put_writes<S: Shelf>(writes: &[Write], shelf: &S, cursor: &mut Cursor<'_>)
    ensures { cursor.new ≡ put_bytes (flat_map (write_bytes (coding S.Value.Value)) (leaf_writes (S.items shelf.now) writes.now)) cursor.old }
{
    for write in writes {
        put_write(write, shelf, cursor);
    }
}

// Writes the leaf of a job, whose row this is.
pub(crate) fn put_leaf<S: Shelf>(job: u16, row: &Row, shelf: &S, cursor: &mut Cursor<'_>)
    requires { lacks_write (length (S.items shelf.now)) (row_view row.now).writes ≡ false }
    ensures { cursor.new ≡ put_bytes (leaf_bytes (coding S.Value.Value) (row_leaf (S.items shelf.now) job (row_view row.now))) cursor.old }
{
    let size = leaf_size(row, S::Value::WIDTH);
    cursor.put_frame_head(size - 4, frame_kind(row.kind));
    cursor.put_all(&job.to_le_bytes());
    cursor.put(row.reads.len() as u8);
    put_reads(row.reads.as_slice(), cursor);
    cursor.put(row.writes.len() as u8);
    put_writes(row.writes.as_slice(), shelf, cursor);
}
