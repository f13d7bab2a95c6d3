// The law on a call that runs: any one of the nine calls, as a value, and what every run keeps through it.
ghost use Rattle.std.specs.Prelude.{◌≡◌, length};
ghost use Rattle.history.specs.Layout.{coding};
ghost use Rattle.house.specs.Model.{model};
ghost use Rattle.house.specs.Runs.{call_after};
ghost use Rattle.law.specs.Law.{TheLaw};
ghost use Rattle.law.specs.Performing.{performed_told, performed_buffer, Continues, OwnTold};

use house::call::{Call, Told};
use house::fault::Fault;
use house::house::House;
use shelves::shelf::Shelf;

// Does a call, by the call of that name.
fn dispatch<S: Shelf>(
    house: &mut House<S>,
    call: Call<S::Value>,
    buffer: &mut [u8],
) -> Result<Told<S::Value>, Fault>
    ensures told { result ≡ performed_told (coding S.Value.Value) (model S.Shelf house.old) call (length buffer.old) }
    ensures after { model S.Shelf house.new ≡ call_after (coding S.Value.Value) (model S.Shelf house.old) call }
    ensures buffer { buffer.new ≡ performed_buffer (coding S.Value.Value) (model S.Shelf house.old) call buffer.old }
{
    match call {
        Call::Open { job, kind } => {
            house.open(job, kind)?;
            Ok(Told::Done)
        }
        Call::Read { job, record } => Ok(Told::Read(house.read(job, record)?)),
        Call::Write { job, record, value } => {
            house.write(job, record, value)?;
            Ok(Told::Done)
        }
        Call::HandIn { job } => {
            house.hand_in(job)?;
            Ok(Told::Done)
        }
        Call::Deliver { job, office } => {
            house.deliver(job, office)?;
            Ok(Told::Done)
        }
        Call::Collect { job } => Ok(Told::Collected(house.collect(job)?)),
        Call::Close { job } => {
            house.close(job)?;
            Ok(Told::Done)
        }
        Call::Withdraw { job } => {
            house.withdraw(job)?;
            Ok(Told::Done)
        }
        Call::Archive { .. } => {
            let size = house.archive(buffer)?;
            Ok(Told::Archived { size })
        }
    }
}

// Does any one of the nine calls. The archive gets the whole buffer, whatever length its call names; the other calls leave the buffer as it is.
//
// `told`, `after` and `buffer` say what it tells, how the house then stands, and what the buffer then holds: for the archive, of which the code goes by the rows, by these.
// `law` is the law of the house, whole: what holds of every run, from a newly built house through any of the nine calls, accepted or refused.
// `own` says of reads what the law leaves out: when a read is told as own, and what it then tells.
// `chain` says that the law speaks of this call: with it added, every run that leads to this house is a run that leads to the house as it then stands,
// and what was told and what the buffer holds is what the rules of the run say. What is added of an archive is the call for a buffer of this length.
// A newly built house is the start of a run: the contract of `House::new` and `begins` say so.
pub fn perform<S: Shelf>(
    house: &mut House<S>,
    call: Call<S::Value>,
    buffer: &mut [u8],
) -> Result<Told<S::Value>, Fault>
    ensures told { result ≡ performed_told (coding S.Value.Value) (model S.Shelf house.old) call (length buffer.old) }
    ensures after { model S.Shelf house.new ≡ call_after (coding S.Value.Value) (model S.Shelf house.old) call }
    ensures buffer { buffer.new ≡ performed_buffer (coding S.Value.Value) (model S.Shelf house.old) call buffer.old }
    ensures law { TheLaw (coding S.Value.Value) }
    ensures own { OwnTold (coding S.Value.Value) }
    ensures chain { Continues (coding S.Value.Value) (model S.Shelf house.old) call buffer.old result buffer.new (model S.Shelf house.new) }
{
    dispatch(house, call, buffer)
}
