// The archive: what the answered jobs read and wrote, as bytes.
ghost use Rattle.std.specs.Prelude.{◌≡◌, length};
ghost use Rattle.history.specs.Layout.{coding};
ghost use Rattle.house.specs.Model.{model};
ghost use Rattle.house.specs.RowArchiving.{rows_told, rows_buffer};

use crate::fault::Fault;
use crate::house::House;
use archive::archive::Archive;
use archive::lacking::lacks_value;
use shelves::fault::ShelfFault;
use shelves::shelf::Shelf;

impl<S: Shelf> House<S> {
    // Writes the archive to the front of a buffer and tells its size; the bytes behind it stay.
    // A buffer that is too short is refused (14, with the size that it needs), and then not a byte is written.
    pub fn archive(&self, buffer: &mut [u8]) -> Result<u64, Fault>
        ensures told { result ≡ rows_told (coding S.Value.Value) (model S.Shelf self.now) (length buffer.old) }
        ensures buffer { buffer.new ≡ rows_buffer (coding S.Value.Value) (model S.Shelf self.now) buffer.old }
    {
        if lacks_value(&self.ledger, &self.shelf) {
            return Err(Fault::Shelf(ShelfFault::NoSuchPlace));
        }
        let archive = Archive {
            ledger: &self.ledger,
            shelf: &self.shelf,
        };
        let size = archive.size();
        if size > buffer.len() {
            return Err(Fault::ShortBuffer {
                needed: size as u64,
            });
        }
        archive.write(buffer);
        Ok(size as u64)
    }
}
