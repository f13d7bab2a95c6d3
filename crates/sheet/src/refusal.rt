// Why a line was refused. The fault of a lower layer is carried whole, and the number of the line joins it.
ghost use Rattle.std.specs.Prelude.{◌≡◌, Some};
ghost use Rattle.sheet.specs.Refusals.{cause_number, cause_layer, refusal_text, numbered};
ghost use Rattle.sheet.specs.declared.refusal.Cause.TheVariants as cause;

use house::fault::{Fault, Layer};
use lines::command::LineFault;
use std::fmt;

#[derive(Clone, Copy, PartialEq, Eq, Debug)]
pub enum Cause {
    Line(LineFault),
    House(Fault),
}

impl Cause {
    pub(crate) fn number(&self) -> u8
        ensures { result ≡ cause_number self.now }
    {
        match self {
            Cause::Line(f) => f.number(),
            Cause::House(f) => f.number(),
        }
    }

    pub(crate) fn layer(&self) -> Layer
        ensures { result ≡ cause_layer self.now }
    {
        match self {
            Cause::Line(_) => Layer::Line,
            Cause::House(f) => f.layer(),
        }
    }
}

impl From<LineFault> for Cause {
    ghost from_gives = { λ f r. r ≡ cause.Line f };

    fn from(f: LineFault) -> Cause {
        Cause::Line(f)
    }
}

impl From<Fault> for Cause {
    ghost from_gives = { λ f r. r ≡ cause.House f };

    fn from(f: Fault) -> Cause {
        Cause::House(f)
    }
}

// The refusal of one line of an input.
#[derive(Clone, Copy, PartialEq, Eq, Debug)]
pub struct Refusal {
    pub line: usize,
    pub cause: Cause,
}

// The text is the format of a refused line.
impl fmt::Display for Refusal {
    ghost output = { λ r. Some (refusal_text r) };

    fn fmt<W: fmt::Write>(&self, f: &mut fmt::Formatter<W>) -> fmt::Result {
        let (layer, number) = (self.cause.layer(), self.cause.number());
        write!(f, "{} no {layer} {number}", self.line)
    }
}

// A refusal with the number of its line.
pub(crate) fn at_line<T>(line: usize, answer: Result<T, Cause>) -> Result<T, Refusal>
    ensures { result ≡ numbered line answer }
{
    answer.map_err(|cause| Refusal { line, cause })
}
