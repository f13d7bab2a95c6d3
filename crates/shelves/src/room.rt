// The limit on the places of any shelf; internal to the crate.
ghost use Rattle.std.specs.Prelude.{◌≡◌};
ghost use Rattle.shelves.specs.Room.{room_of};

// The most places that a shelf has.
pub const MOST_PLACES: usize = 4096;

// How many places are used where memory has so many.
pub(crate) fn room_of(places: usize) -> usize
    ensures { result ≡ room_of places }
{
    places.min(MOST_PLACES)
}
