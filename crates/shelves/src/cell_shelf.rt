// The cell shelf: values of any kind in cells that the caller lends.
ghost use Rattle.std.specs.Prelude.{◌≡◌, ◌<◌, [], length, slice_index_or, slice_set};
ghost use Rattle.shelves.specs.Adding.{place_told, items_after_add};
ghost use Rattle.shelves.specs.Cells.{value_in, cell_items, cell_room, cells_after_add};
ghost use Rattle.shelves.specs.Room.{room_of};

use crate::fault::ShelfFault;
use crate::room::room_of;
use crate::shelf::Shelf;
use values::value::Value;

// A shelf over lent cells, of which the first `len` hold the values; the others may hold anything.
#[derive(Drop)]
pub struct CellShelf<'a, V: Value> {
    cells: &'a mut [V::Cell],
    len: usize,
}

impl<'a, V: Value> CellShelf<'a, V> {
    // An empty shelf over the cells, which stay as they are; its capacity is their number, up to 4,096.
    pub fn new(cells: &'a mut [V::Cell]) -> CellShelf<'a, V>
        ensures empty { cell_items V.Value result ≡ [] }
        ensures room { cell_room result ≡ room_of (length cells.old) }
        ensures lent { result.cells.now ≡ cells.old }
        ensures named { result.cells.ghost_name ≡ cells.entry.ghost_name }
    {
        CellShelf { cells, len: 0 }
    }
}

impl<'a, V: Value> Shelf for CellShelf<'a, V> {
    type Value = V;

    ghost items = { cell_items V.Value };

    ghost room = { cell_room };

    // As every shelf; and the cell at the place told is the value's, while all other cells are as before.
    fn add(&mut self, value: V) -> Result<u64, ShelfFault>
        ensures told { result ≡ place_told (cell_items V.Value self.old) (cell_room self.old) }
        ensures holds { cell_items V.Value self.new ≡ items_after_add (cell_items V.Value self.old) (cell_room self.old) value }
        ensures same { length (cell_items V.Value self.old) ≡ cell_room self.old → self.new ≡ self.old }
        ensures keeps { cell_room self.new ≡ cell_room self.old }
        ensures written { self.new.cells.now ≡ cells_after_add V.Value self.old value }
        ensures named { self.new.cells.ghost_name ≡ self.old.cells.ghost_name }
    {
        let place = self.len;
        if place >= room_of(self.cells.len()) {
            return Err(ShelfFault::Full);
        }
        // no `get_mut` with the limit in the test: once its borrow is over, nothing is known of the cells
        self.cells[place] = value.to_cell();
        self.len = place + 1;
        Ok(place as u64)
    }

    fn fetch(&self, place: u64) -> Result<V, ShelfFault> {
        // no `get`: the cells behind the last value are there too, so it would find one for a place that holds none
        if place >= self.len() {
            return Err(ShelfFault::NoSuchPlace);
        }
        Ok(V::from_cell(self.cells[place as usize]).unwrap_or(V::spare()))
    }

    fn len(&self) -> u64 {
        self.len.min(room_of(self.cells.len())) as u64
    }

    fn capacity(&self) -> u64 {
        room_of(self.cells.len()) as u64
    }
}
