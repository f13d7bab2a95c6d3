// One command carried out in a house of amounts.
ghost use Rattle.std.specs.Prelude.{◌≡◌};
ghost use Rattle.house.specs.Faults.{kept};
ghost use Rattle.house.specs.Model.{model};
ghost use Rattle.sheet.specs.Carrying.{command_told, command_after, line_told, line_after};

use crate::answer::Answer;
use crate::refusal::Cause;
use house::fault::Fault;
use house::house::House;
use ledger::job::JobKind;
use lines::command::Command;
use lines::parse::parse;
use shelves::shelf::Shelf;
use values::amount::Amount;

// What the house tells of a command.
pub(crate) fn carry_out<S: Shelf<Value = Amount>>(
    house: &mut House<S>,
    command: Command,
) -> Result<Answer, Cause>
    ensures told { result ≡ command_told (model S.Shelf house.old) command }
    ensures after { model S.Shelf house.new ≡ command_after (model S.Shelf house.old) command }
{
    let done = |()| Answer::Done;
    let answer = match command {
        Command::OpenAmendment { job } => house.open(job, JobKind::Amendment).map(done),
        Command::OpenInspection { job } => house.open(job, JobKind::Inspection).map(done),
        Command::Read { job, record } => house.read(job, record).map(Answer::Read),
        Command::Write {
            job,
            record,
            currency,
            units,
        } => {
            let amount = Amount::from_numbers(currency, units).map_err(Fault::from)?;
            house.write(job, record, amount).map(done)
        }
        Command::Withdraw { job } => house.withdraw(job).map(done),
        Command::HandIn { job } => house.hand_in(job).map(done),
        Command::Deliver { job, office } => house.deliver(job, office).map(done),
        Command::Collect { job } => house.collect(job).map(Answer::Collected),
        Command::Close { job } => house.close(job).map(done),
    };
    Ok(answer?)
}

// What is told of a line: of its command, if it writes one.
pub(crate) fn carry_out_line<S: Shelf<Value = Amount>>(
    house: &mut House<S>,
    line: &[u8],
) -> Result<Answer, Cause>
    ensures told { result ≡ line_told (model S.Shelf house.old) line.now }
    ensures after { model S.Shelf house.new ≡ line_after (model S.Shelf house.old) line.now }
{
    carry_out(house, parse(line)?)
}
