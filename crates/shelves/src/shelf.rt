// What a shelf is: a list of values of one kind that only grows, up to a fixed capacity.
ghost use Rattle.std.specs.Prelude.{◌≡◌, ℕ, List, length};
ghost use Rattle.shelves.specs.Adding.{place_told, items_after_add, fetched};

use crate::fault::ShelfFault;
use values::value::Value;

// An append-only store of values; the places of its values are counted from 0 and never freed.
pub trait Shelf {
    // the kind of value that the shelf holds
    type Value: Value;

    // the values, in the order in which they were added
    ghost items: { Self → List Self.Value };
    // how many values there is room for
    ghost room: { Self → ℕ };

    // Adds a value at the end and tells its place; refused (13), with the whole shelf as it was, exactly if there is no room.
    fn add(&mut self, value: Self::Value) -> Result<u64, ShelfFault>
        ensures told { result ≡ place_told (items self.old) (room self.old) }
        ensures holds { items self.new ≡ items_after_add (items self.old) (room self.old) value }
        ensures same { length (items self.old) ≡ room self.old → self.new ≡ self.old }
        ensures keeps { room self.new ≡ room self.old };

    // The value at a place; refused (21) exactly if the place is not below the length.
    fn fetch(&self, place: u64) -> Result<Self::Value, ShelfFault>
        ensures { result ≡ fetched (items self.now) place };

    // How many values the shelf holds.
    fn len(&self) -> u64
        ensures { result ≡ length (items self.now) };

    // How many values the shelf has room for.
    fn capacity(&self) -> u64
        ensures { result ≡ room self.now };
}
