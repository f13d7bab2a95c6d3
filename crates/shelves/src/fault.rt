// Why a shelf refuses.
ghost use Rattle.std.specs.Prelude.{◌≡◌};
ghost use Rattle.shelves.specs.Faults.{shelf_fault_number};

// A refusal of a shelf, with its number.
#[derive(Clone, Copy, PartialEq, Eq, Debug)]
pub enum ShelfFault {
    // the shelf holds as many values as it has room for
    Full = 13,
    // no value was added at the place
    NoSuchPlace = 21,
}

impl ShelfFault {
    // The refusal's number.
    pub fn number(&self) -> u8
        ensures { result ≡ shelf_fault_number self.now }
    {
        *self as u8
    }
}
