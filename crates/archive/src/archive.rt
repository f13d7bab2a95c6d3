// The archive of a ledger and its shelf: what is written, of what, and that nothing of it is lacking.
ghost use Rattle.std.specs.Prelude.{◌≡◌, false, length};
ghost use Rattle.archive.specs.Leaves.{lacks_value};
ghost use Rattle.ledger.specs.View.{view};

use ledger::ledger::Ledger;
use shelves::shelf::Shelf;

// The ledger has the answered jobs, and the shelf has their values.
#[derive(Drop)]
pub struct Archive<'a, S: Shelf> {
    pub ledger: &'a Ledger,
    pub shelf: &'a S,
    // no value of an answered job is lacking
    pub ghost complete: { lacks_value (length (S.items shelf.now)) (view ledger.now).rows ≡ false },
}
