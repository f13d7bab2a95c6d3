// The first character of a line, which chooses the command.
ghost use Rattle.std.specs.Prelude.{◌≡◌};
ghost use Rattle.std.specs.Option.{ok_or};
ghost use Rattle.lines.specs.Commands.{letter_of};
ghost use Rattle.lines.specs.declared.command.LineFault.TheVariants.{UnknownLetter};

use crate::command::{Letter, LineFault};

// The letter that a character is; refused (19) if it chooses no command.
impl TryFrom<char> for Letter {
    type Error = LineFault;

    ghost try_from_gives = { λ c r. r ≡ ok_or (letter_of c) UnknownLetter };

    fn try_from(c: char) -> Result<Letter, LineFault> {
        match c {
            'a' => Ok(Letter::Amendment),
            'i' => Ok(Letter::Inspection),
            'r' => Ok(Letter::Read),
            'w' => Ok(Letter::Write),
            'h' => Ok(Letter::HandIn),
            'd' => Ok(Letter::Deliver),
            'c' => Ok(Letter::Collect),
            'e' => Ok(Letter::Close),
            'u' => Ok(Letter::Withdraw),
            _ => Err(LineFault::UnknownLetter),
        }
    }
}
