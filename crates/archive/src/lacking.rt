// Whether the shelf lacks a value that a leaf would have.
ghost use Rattle.std.specs.Prelude.{◌≡◌, ◌&&◌, length};
ghost use Rattle.std.specs.List.{list_any};
ghost use Rattle.archive.specs.Leaves.{lacks_write, lacks_value};
ghost use Rattle.ledger.specs.Model.{is_answered};
ghost use Rattle.ledger.specs.View.{view, row_view};

use ledger::job::{Row, Write};
use ledger::ledger::Ledger;
use shelves::shelf::Shelf;

// Whether the archive has a leaf of the job with this row: its commit is known to its client.
pub(crate) fn has_leaf(row: &Row) -> bool
    ensures { result ≡ is_answered (row_view row.now).state }
{
    row.is_answered()
}

// Whether a shelf of so many values lacks one of these writes.
fn lacks_write(count: u64, writes: &[Write]) -> bool
    ensures { result ≡ lacks_write count writes.now }
{
    writes.iter().any(|write| count <= write.place)
}

// Whether it lacks one of the leaf of this row.
fn row_lacks(count: u64, row: &Row) -> bool
    ensures { result ≡ (is_answered (row_view row.now).state && lacks_write count (row_view row.now).writes) }
{
    has_leaf(row) && lacks_write(count, row.writes.as_slice())
}

// Whether it lacks one of the leaves of these rows. A function of its own: inside the generic one below, the proof of the chain does not close.
fn rows_lack(count: u64, rows: &[Row]) -> bool
    ensures { result ≡ list_any (λ x. is_answered (row_view x).state && lacks_write count (row_view x).writes) rows.now }
{
    rows.iter().any(|row| row_lacks(count, row))
}

// Whether the shelf lacks a value of an answered job.
pub fn lacks_value<S: Shelf>(ledger: &Ledger, shelf: &S) -> bool
    ensures { result ≡ lacks_value (length (S.items shelf.now)) (view ledger.now).rows }
{
    rows_lack(shelf.len(), &ledger.rows[..])
}
