// The numbers by which calls name jobs and records.
ghost use Rattle.std.specs.Prelude.{◌≡◌, None, nat_lt};
ghost use Rattle.ledger.specs.Faults.{told, refuse_if};
ghost use Rattle.ledger.specs.Limits.{last_job, last_record};
ghost use Rattle.ledger.specs.declared.fault.LedgerFault.TheVariants as fault;

use crate::fault::LedgerFault;
use crate::limits::RECORDS;

// The number of a job, which ends at 255.
pub(crate) fn job_number(job: u64) -> Result<u8, LedgerFault>
    ensures { result ≡ told (refuse_if (nat_lt last_job job) fault.JobNumber None) job }
{
    u8::try_from(job).map_err(|_| LedgerFault::JobNumber)
}

// The number of a record, which ends at 63.
pub(crate) fn record_number(record: u64) -> Result<u8, LedgerFault>
    ensures { result ≡ told (refuse_if (nat_lt last_record «record») fault.RecordNumber None) «record» }
{
    if record >= RECORDS as u64 {
        return Err(LedgerFault::RecordNumber);
    }
    Ok(record as u8)
}
