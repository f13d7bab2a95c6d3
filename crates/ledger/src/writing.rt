// Write: what the ledger checks before the value goes to the shelf, and the place that it lists afterwards.
ghost use Rattle.std.specs.Prelude.{◌≡◌, false, not, ◌&&◌, length, None, nat_le};
ghost use Rattle.ledger.specs.Faults.{told, refuse_if};
ghost use Rattle.ledger.specs.Limits.{most_listed};
ghost use Rattle.ledger.specs.Model.{has_written};
ghost use Rattle.ledger.specs.View.{view, row_view};
ghost use Rattle.ledger.specs.Writing.{write_fault, write_done, with_write};
ghost use Rattle.ledger.specs.declared.fault.LedgerFault.TheVariants as fault;

use crate::fault::LedgerFault;
use crate::job::{Row, Write};
use crate::ledger::Ledger;
use crate::limits::MOST_LISTED;
use crate::lookups::{is_written, write_index};
use crate::numbers::{job_number, record_number};

impl Row {
    // Refuses a ninth record; one that is listed already takes no room.
    fn check_room(&self, record: u8) -> Result<(), LedgerFault>
        ensures { result ≡ told (refuse_if (not (has_written (row_view self.now).writes «record») && nat_le most_listed (length (row_view self.now).writes)) fault.TooManyWrites None) tt }
    {
        if !is_written(self.writes.as_slice(), record) && self.writes.len() >= MOST_LISTED {
            return Err(LedgerFault::TooManyWrites);
        }
        Ok(())
    }

    // The row's step at write: the place goes into the entry of the record if there is one, else into a new entry at the end.
    fn list_place(&mut self, record: u8, place: u64)
        requires { not (has_written (row_view self.old).writes «record») && nat_le most_listed (length (row_view self.old).writes) ≡ false }
        ensures { row_view self.new ≡ with_write (row_view self.old) «record» place }
    {
        match write_index(self.writes.as_slice(), record) {
            Some(index) => {
                let write = self.writes.as_slice()[index];
                self.writes.replace(index, Write { place, ..write });
            }
            None => self.writes.push(Write {
                record,
                place,
                version: 0,
            }),
        }
    }
}

impl Ledger {
    // What a write is refused for, before its value is looked at.
    pub fn check_write(&self, job: u64, record: u64) -> Result<(), LedgerFault>
        ensures { result ≡ told (write_fault (view self.now) job «record») tt }
    {
        let job = job_number(job)?;
        let record = record_number(record)?;
        let row = &self.rows[job as usize];
        row.check_open_amendment()?;
        row.check_room(record)
    }

    // Lists the place of a value that was written; the write has been checked.
    pub fn list_write(&mut self, job: u64, record: u64, place: u64)
        requires { write_fault (view self.old) job «record» ≡ None }
        ensures { view self.new ≡ write_done (view self.old) job «record» place }
    {
        self.rows[job as usize].list_place(record as u8, place);
    }
}
