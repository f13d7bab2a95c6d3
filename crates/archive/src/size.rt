// How many leaves an archive has, and how many bytes it takes.
ghost use Rattle.std.specs.Prelude.{◌≡◌, ◌≤◌, filter, map, length, sum_by, count_by};
ghost use Rattle.archive.specs.Archives.{ledger_bytes};
ghost use Rattle.archive.specs.Sizes.{row_size};
ghost use Rattle.ledger.specs.Model.{is_answered};
ghost use Rattle.ledger.specs.View.{row_view};

use crate::archive::Archive;
use crate::lacking::has_leaf;
use ledger::job::Row;
use shelves::shelf::Shelf;
use values::value::Value;

// The head frame's bytes.
const HEAD_SIZE: usize = 12;

// A leaf's bytes without its lists: the frame's head, the job number and two counts.
const LEAF_BASE: u32 = 10;

// The bytes of the leaf of a row.
pub(crate) fn leaf_size(row: &Row, width: usize) -> u32
    requires { width ≤ 32 }
    ensures value { result ≡ row_size width (row_view row.now) }
    ensures bound { result ≤ 298 }
{
    LEAF_BASE + (2 * row.reads.len() + (2 + width) * row.writes.len()) as u32
}

// How many leaves these rows have.
pub(crate) fn leaf_count(rows: &[Row]) -> usize
    ensures value { result ≡ count_by (λ x. is_answered x.state) (map row_view rows.now) }
    ensures bound { result ≤ length rows.now }
{
    rows.iter().filter(|row| has_leaf(row)).count()
}

// The bytes of the leaves of these rows.
fn leaves_size(rows: &[Row], width: usize) -> u32
    requires narrow { width ≤ 32 }
    requires few { length rows.now ≤ 256 }
    ensures { result ≡ sum_by (λ x. row_size width (row_view x)) (filter (λ x. is_answered (row_view x).state) rows.now) }
{
    rows.iter()
        .filter(|row| has_leaf(row))
        .map(|row| leaf_size(row, width))
        .sum()
}

impl<'a, S: Shelf> Archive<'a, S> {
    // How many bytes the archive takes.
    pub fn size(&self) -> usize
        ensures { result ≡ length (ledger_bytes S.Value.Value (S.items self.now.shelf.now) self.now.ledger.now) }
    {
        HEAD_SIZE + leaves_size(&self.ledger.rows[..], S::Value::WIDTH) as usize
    }
}
