// The whole day as one text: an answer for each line, and the answered jobs at its end.
ghost use Rattle.std.specs.Prelude.{◌≡◌, take, Some, IfOk, string_bytes};
ghost use Rattle.lines.specs.Cutting.{lines_of, most_input};
ghost use Rattle.house.specs.Model.{model};
ghost use Rattle.sheet.specs.Day.{line_text, jobs_text, end_text, lines_text, day_text, Appended};

use crate::answer::Answer;
use crate::carry_out::carry_out_line;
use crate::refusal::{Refusal, at_line};
use house::house::House;
use lines::cut::first_bytes;
use lines::lines::Lines;
use shelves::byte_shelf::ByteShelf;
use shelves::shelf::Shelf;
use std::alloc::Global;
use std::fmt;
use values::amount::Amount;

// A house of so many offices over a byte shelf of so many bytes.
const OFFICES: u64 = 2;

const SHELF_BYTES: usize = 1024;

// The answer of the line with the number. The text is the format.
#[derive(Clone, Copy, PartialEq, Eq, Debug)]
struct AnswerLine {
    number: usize,
    answer: Result<Answer, Refusal>,
}

impl fmt::Display for AnswerLine {
    ghost output = { λ l. Some (line_text l.number l.answer) };

    fn fmt<W: fmt::Write>(&self, f: &mut fmt::Formatter<W>) -> fmt::Result {
        match self.answer {
            Ok(told) => writeln!(f, "{} ok{told}", self.number),
            Err(refusal) => writeln!(f, "{refusal}"),
        }
    }
}

fn write_jobs(text: &mut String, jobs: &[u8]) -> fmt::Result
    ensures { Appended result text.old text.new (jobs_text jobs.now) }
{
    for job in jobs {
        write!(text, " {job}")?;
    }
    Ok(())
}

fn write_end(text: &mut String, jobs: &[u8]) -> fmt::Result
    ensures { Appended result text.old text.new (end_text jobs.now) }
{
    write!(text, "end")?;
    write_jobs(text, jobs)?;
    writeln!(text)?;
    Ok(())
}

// Carries out all lines of an input in a house, one after another.
fn write_lines<S: Shelf<Value = Amount>>(
    text: &mut String,
    house: &mut House<S>,
    input: &[u8],
) -> fmt::Result
    ensures { Appended result text.old text.new (lines_text 1 (model S.Shelf house.old) (lines_of (take most_input input.now))) }
{
    for (i, line) in Lines::new(first_bytes(input)).enumerate() {
        let number = i + 1;
        let answer = at_line(number, carry_out_line(house, line));
        write!(text, "{}", AnswerLine { number, answer })?;
    }
    write_end(text, house.answered())
}

// What is printed of an input. An `Err` is want of memory for the text.
pub fn day(heap: Global, input: &[u8]) -> Result<String, fmt::Error>
    ensures { IfOk result (λ text. string_bytes text ≡ day_text input.now) }
{
    let mut bytes = [0u8; SHELF_BYTES];
    let shelf = ByteShelf::<Amount>::new(&mut bytes);
    let mut house = House::new(OFFICES, shelf);
    let mut text = String::new(heap);
    write_lines(&mut text, &mut house, input)?;
    Ok(text)
}
