// One line as one command.
ghost use Rattle.std.specs.Prelude.{◌≡◌};
ghost use Rattle.lines.specs.Commands.{command_of, parsed};

use crate::command::{Command, Letter, LineFault};
use crate::fields::Fields;

// A line without its newline has at most so many bytes.
const LONGEST_LINE: usize = 80;

// The command of a letter, with the fields that stand behind the letter.
pub fn command_of(letter: Letter, fields: &[u8]) -> Option<Command>
    ensures { result ≡ command_of letter fields.now }
{
    let mut fields = Fields::new(fields);
    let command = match letter {
        Letter::Amendment => Command::OpenAmendment {
            job: fields.number()?,
        },
        Letter::Inspection => Command::OpenInspection {
            job: fields.number()?,
        },
        Letter::Read => Command::Read {
            job: fields.number()?,
            record: fields.number()?,
        },
        Letter::Write => Command::Write {
            job: fields.number()?,
            record: fields.number()?,
            currency: fields.number()?,
            units: fields.signed_number()?,
        },
        Letter::HandIn => Command::HandIn {
            job: fields.number()?,
        },
        Letter::Deliver => Command::Deliver {
            job: fields.number()?,
            office: fields.number()?,
        },
        Letter::Collect => Command::Collect {
            job: fields.number()?,
        },
        Letter::Close => Command::Close {
            job: fields.number()?,
        },
        Letter::Withdraw => Command::Withdraw {
            job: fields.number()?,
        },
    };
    fields.is_empty().then_some(command)
}

// The command that a line without its newline writes.
pub fn parse(line: &[u8]) -> Result<Command, LineFault>
    ensures { result ≡ parsed line.now }
{
    if line.len() > LONGEST_LINE {
        return Err(LineFault::TooLong);
    }
    let (first, fields) = line.split_first().ok_or(LineFault::UnknownLetter)?;
    let letter = Letter::try_from(char::from(*first))?;
    command_of(letter, fields).ok_or(LineFault::WrongFields)
}
