// What a command that is carried out tells, and its text.
ghost use Rattle.std.specs.Prelude.{Some};
ghost use Rattle.sheet.specs.Answers.{answer_text, amount_text};

use house::reading::Reading;
use ledger::job::Collected;
use std::fmt;
use values::amount::Amount;

#[derive(Clone, Copy, PartialEq, Eq, Debug)]
pub enum Answer {
    // the command is done, and there is no more to tell
    Done,
    Read(Reading<Amount>),
    Collected(Collected),
}

// The text is the format of an answer.
impl fmt::Display for Answer {
    ghost output = { λ a. Some (answer_text a) };

    fn fmt<W: fmt::Write>(&self, f: &mut fmt::Formatter<W>) -> fmt::Result {
        match *self {
            Answer::Done => Ok(()),
            Answer::Read(Reading::Blank) => write!(f, " 0"),
            Answer::Read(Reading::Own(amount)) => write!(f, " own {}", Numbers(amount)),
            Answer::Read(Reading::Version { number, value }) => {
                write!(f, " {number} {}", Numbers(value))
            }
            Answer::Collected(Collected::Answered) => write!(f, " answered"),
            Answer::Collected(Collected::Dropped(mark)) => write!(f, " dropped {}", mark.number()),
        }
    }
}

// An amount that is printed as its currency's number and its units.
#[derive(Clone, Copy, PartialEq, Eq, Debug)]
struct Numbers(Amount);

// The text is the format of an amount in an answer.
impl fmt::Display for Numbers {
    ghost output = { λ n. Some (amount_text n.0) };

    fn fmt<W: fmt::Write>(&self, f: &mut fmt::Formatter<W>) -> fmt::Result {
        write!(f, "{} {}", self.0.currency().number(), self.0.units())
    }
}
