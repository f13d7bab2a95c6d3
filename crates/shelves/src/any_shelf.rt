// What holds of every shelf, shown once.
ghost use Rattle.std.specs.Prelude.{◌≡◌};
ghost use Rattle.shelves.specs.Adding.{added_value, items_after_add};

use crate::fault::ShelfFault;
use crate::shelf::Shelf;

// Adds a value and fetches it again: gives the value back, or refuses (13) if there is no room.
pub fn add_then_fetch<S: Shelf>(shelf: &mut S, value: S::Value) -> Result<S::Value, ShelfFault>
    ensures told { result ≡ added_value (S.Shelf.items shelf.old) (S.Shelf.room shelf.old) value }
    ensures holds { S.Shelf.items shelf.new ≡ items_after_add (S.Shelf.items shelf.old) (S.Shelf.room shelf.old) value }
    ensures keeps { S.Shelf.room shelf.new ≡ S.Shelf.room shelf.old }
{
    let place = shelf.add(value)?;
    shelf.fetch(place)
}
