//! How a call is refused: why, where, and which part found it.
ghost use Rattle.std.specs.Prelude.{◌≡◌, Some};
ghost use Rattle.roads.specs.Words.{word, docket};
ghost use Rattle.roads.specs.Faults.{number, report, reported, unless};

use std::fmt;

/// Why a call is refused, by its number.
#[derive(Clone, Copy, PartialEq, Eq, Debug)]
pub enum Refusal {
    Length = 1,
    Limits,
    Field,
    Chain,
    Junction,
    Road,
    Already,
    NotClosed,
    Full,
    NotReady,
    Short,
    NoWay,
    FalseSheet,
    Line,
}

/// The part that found a fault.
#[derive(Clone, Copy, PartialEq, Eq, Debug)]
pub enum Part {
    Map,
    Layer,
    Planner,
    Book,
}

/// A refusal with its place and the part that found it. A part hands on a lower part's fault whole.
#[derive(Clone, Copy, PartialEq, Eq, Debug)]
pub struct Fault {
    pub refusal: Refusal,
    pub place: usize,
    pub part: Part,
}

/// A fault as it is told: its number, its place, and the part that found it.
// Kept: what is refused is defined by reports, and a report tells a refusal by the number that a user looks up.
#[derive(Clone, Copy, PartialEq, Eq, Debug)]
pub struct Report {
    pub number: u8,
    pub place: usize,
    pub part: Part,
}

impl From<Refusal> for u8 {
    ghost from_gives = { λ x n. n ≡ number x };

    fn from(refusal: Refusal) -> u8 {
        refusal as u8
    }
}

impl Fault {
    #[inline(always)]
    pub fn new(refusal: Refusal, place: usize, part: Part) -> Fault
        ensures { result ≡ record { refusal = refusal; place = place; part = part } }
    {
        Fault {
            refusal,
            place,
            part,
        }
    }

    /// A check: refused unless the test holds.
    #[inline(always)]
    pub fn unless(test: bool, refusal: Refusal, place: usize, part: Part) -> Result<(), Fault>
        ensures { reported result ≡ unless test (number refusal) place part }
    {
        if test {
            Ok(())
        } else {
            Err(Fault::new(refusal, place, part))
        }
    }
}

impl From<Fault> for Report {
    ghost from_gives = { λ f x. x ≡ report f };

    fn from(fault: Fault) -> Report {
        Report {
            number: u8::from(fault.refusal),
            place: fault.place,
            part: fault.part,
        }
    }
}

impl fmt::Display for Part {
    ghost output = { λ p. Some (word p) };

    fn fmt<W: fmt::Write>(&self, f: &mut fmt::Formatter<W>) -> fmt::Result {
        match self {
            Part::Map => write!(f, "map"),
            Part::Layer => write!(f, "layer"),
            Part::Planner => write!(f, "planner"),
            Part::Book => write!(f, "book"),
        }
    }
}

/// Number, place and part, as `6 17 layer`.
impl fmt::Display for Report {
    ghost output = { λ x. Some (docket x) };

    fn fmt<W: fmt::Write>(&self, f: &mut fmt::Formatter<W>) -> fmt::Result {
        write!(f, "{} {} {}", self.number, self.place, self.part)
    }
}
