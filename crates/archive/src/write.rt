// The whole archive: the head, and the leaves in rising job number.
ghost use Rattle.std.specs.Prelude.{◌≡◌, ◌≤◌, length};
ghost use Rattle.std.specs.List.{flat_map};
ghost use Rattle.encoding.specs.Outputs.{put_bytes, in_front};
ghost use Rattle.archive.specs.Archives.{ledger_leaves, ledger_bytes};
ghost use Rattle.history.specs.Layout.{coding, leaf_bytes, head_bytes};

use crate::archive::Archive;
use crate::frame::Frame;
use crate::lacking::has_leaf;
use crate::leaf::put_leaf;
use crate::size::leaf_count;
use encoding::cursor::Cursor;
use shelves::shelf::Shelf;
use values::value::Value;

// The head: how many leaves follow, and the number and the width of the kind of value.
fn put_head<V: Value>(leaves: u16, cursor: &mut Cursor<'_>)
    ensures { cursor.new ≡ put_bytes (head_bytes (coding V.Value) leaves) cursor.old }
{
    cursor.put_frame_head(8, Frame::Head as u16);
    cursor.put_all(&leaves.to_le_bytes());
    cursor.put_all(&V::KIND.to_le_bytes());
    cursor.put_all(&(V::WIDTH as u16).to_le_bytes());
}

impl<'a, S: Shelf> Archive<'a, S> {
    // The leaves of the answered jobs.
    fn put_leaves(&self, cursor: &mut Cursor<'_>)
        ensures { cursor.new ≡ put_bytes (flat_map (leaf_bytes (coding S.Value.Value)) (ledger_leaves (S.items self.now.shelf.now) self.now.ledger.now)) cursor.old }
    {
        let rows = &self.ledger.rows[..];
        for (job, row) in rows.iter().enumerate() {
            if has_leaf(row) {
                put_leaf(job as u16, row, self.shelf, cursor);
            }
        }
    }

    // Writes the archive to the front of a buffer that has room for it; the bytes behind it stay.
    pub fn write(&self, buffer: &mut [u8])
        requires { length (ledger_bytes S.Value.Value (S.items self.now.shelf.now) self.now.ledger.now) ≤ length buffer.old }
        ensures { buffer.new ≡ in_front (ledger_bytes S.Value.Value (S.items self.now.shelf.now) self.now.ledger.now) buffer.old }
    {
        let mut cursor = Cursor {
            buffer,
            position: 0,
        };
        put_head::<S::Value>(leaf_count(&self.ledger.rows[..]) as u16, &mut cursor);
        self.put_leaves(&mut cursor);
    }
}
