// What a kind of value is: its number, its width, and its values as bytes and as cells.
ghost use Rattle.std.specs.Prelude.{◌≡◌, ℕ, ◌<◌, ◌≤◌, List, length, if◌then◌else◌, Some, Option, ◌==◌, nat_eq};
ghost use Rattle.std.specs.Option.{ok_or};
ghost use Rattle.encoding.specs.Bytes.{Octets};
ghost use Rattle.values.specs.declared.fault.ValueFault.TheVariants.{NotAValue};

use crate::fault::ValueFault;

// A kind of value: a type whose values are encoded to a fixed number of bytes.
pub trait Value: Copy {
    // the kind's number
    const KIND: u16;
    // how many bytes a value is encoded to
    const WIDTH: usize;
    // a plain row of the kind's numbers with no limits of its own, as it may lie in memory that a caller lends
    type Cell: Copy;

    // the two constants, for clauses and proofs
    ghost KIND: { ℕ };

    ghost WIDTH: { ℕ };
    // the bytes that a value is encoded to
    ghost bytes: { Self → List ℕ };
    // the value that bytes decode to, if they are one's
    ghost parsed: { List ℕ → Option Self };
    // the cell of a value
    ghost cell: { Self → Self.Cell };
    // the value that a cell holds, if its numbers are one's
    ghost restored: { Self.Cell → Option Self };
    // a fixed value for the places that hold none, so that any memory of a shelf means some list of values;
    // a shelf holds only what was added to it, so the spare value never shows
    ghost fallback: { Self };

    // Writes the value's bytes if there is room for exactly these, else nothing; tells which,
    // so that a caller with a buffer of another length learns that nothing was written.
    fn encode(self, out: &mut [u8]) -> bool
        ensures told { result ≡ (length out.old == WIDTH) }
        ensures written { out.new ≡ (if nat_eq (length out.old) WIDTH then bytes self else out.old) };

    // The value whose bytes these are; refused (16) if they are no value's.
    fn decode(encoded: &[u8]) -> Result<Self, ValueFault>
        ensures { result ≡ ok_or (parsed encoded.now) NotAValue };

    // The value's cell.
    fn to_cell(self) -> Self::Cell
        ensures { result ≡ cell self };

    // The value that a cell holds; refused (16) if its numbers are no value's.
    fn from_cell(stored: Self::Cell) -> Result<Self, ValueFault>
        ensures { result ≡ ok_or (restored stored) NotAValue };

    // The spare value.
    fn spare() -> Self
        ensures { result ≡ fallback };

    ghost width_positive: { 0 < WIDTH };

    ghost width_limit: { WIDTH ≤ 32 };

    ghost kind_limit: { KIND < 65536 };

    ghost bytes_width: { (v : Self) → length (bytes v) ≡ WIDTH };

    ghost parsed_bytes: { (v : Self) → parsed (bytes v) ≡ Some v };

    ghost bytes_parsed: { (s : List ℕ) (v : Self) → Octets s → parsed s ≡ Some v → bytes v ≡ s };

    ghost restored_cell: { (v : Self) → restored (cell v) ≡ Some v };

    ghost cell_restored: { (c : Self.Cell) (v : Self) → restored c ≡ Some v → cell v ≡ c };
}
