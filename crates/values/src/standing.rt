// Standings of goods at a customs office, which keep their limits from their making.
ghost use Rattle.std.specs.Prelude.{◌<◌, ◌≤◌};
ghost use Rattle.values.specs.Limits.{days, most_reason};

pub mod kind;

// The highest number of a reason.
pub const MOST_REASON: u64 = 99;

// A day, counted from 1 January 2000, which is day 0.
#[derive(Clone, Copy, PartialEq, Eq, Debug)]
pub struct Day {
    number: u32,
    ghost fits: { number < days },
}

// Why goods were stopped, by its number.
#[derive(Clone, Copy, PartialEq, Eq, Debug)]
pub struct Reason {
    number: u8,
    ghost small: { number ≤ most_reason },
}

// Where goods stand: lodged or released on a day, or stopped for a reason.
#[derive(Clone, Copy, PartialEq, Eq, Debug)]
pub enum Standing {
    Lodged(Day),
    Released(Day),
    Stopped(Reason),
}

// The numbers of a standing, with no limits: 1, 2 or 3 for lodged, released or stopped, and the day or the reason.
// A number and no enum for the state: a cell is a plain row of numbers with no limits of its own, and another program may pass any.
#[derive(Clone, Copy, PartialEq, Eq, Debug, Default)]
pub struct StandingCell {
    pub state: u8,
    pub number: u32,
}
