// What is asked of a plan, and what it answers.
ghost use Rattle.std.specs.Prelude.{◌≡◌, Some};
ghost use Rattle.runs.specs.Numbers.{refusal_number, refusal_words};
ghost use Rattle.runs.specs.declared.calls.Refusal.TheVariants.{File, Plan};

use owed::Line;
use refusals::{FileQuestion, PlanQuestion};
use std::fmt;

// A call on a plan.
#[derive(Clone, Copy)]
pub enum Call<'a> {
    // of a file
    Load(&'a [u8]),
    // to a day
    Seek(u32),
    Draw,
}

// How many series and fault entries a file made.
#[derive(Clone, Copy, Debug, PartialEq, Eq)]
pub struct Made {
    pub series: u16,
    pub faults: u16,
}

// How many places the tables have that a plan is lent.
#[derive(Clone, Copy, Debug, PartialEq, Eq)]
pub struct Places {
    pub series: usize,
    pub faults: usize,
    pub queue: usize,
}

// The first question that a call fails.
#[derive(Clone, Copy, Debug, PartialEq, Eq)]
pub enum Refusal {
    // of those on the file
    File(FileQuestion),
    // of the others
    Plan(PlanQuestion),
}

impl Refusal {
    // The number of its question.
    pub fn number(self) -> u8
        ensures { result ≡ refusal_number self }
    {
        match self {
            Refusal::File(question) => question.number(),
            Refusal::Plan(question) => question.number(),
        }
    }
}

impl fmt::Display for Refusal {
    ghost output = { λ refusal. Some (refusal_words refusal) };

    fn fmt<W: fmt::Write>(&self, f: &mut fmt::Formatter<W>) -> fmt::Result {
        match self {
            Refusal::File(question) => write!(f, "{question}"),
            Refusal::Plan(question) => write!(f, "{question}"),
        }
    }
}

impl From<FileQuestion> for Refusal {
    ghost from_gives = { λ question r. r ≡ File question };

    fn from(question: FileQuestion) -> Refusal {
        Refusal::File(question)
    }
}

impl From<PlanQuestion> for Refusal {
    ghost from_gives = { λ question r. r ≡ Plan question };

    fn from(question: PlanQuestion) -> Refusal {
        Refusal::Plan(question)
    }
}

// What a call answers.
#[derive(Clone, Copy, Debug, PartialEq, Eq)]
pub enum Answer {
    Loaded(Made),
    // the mark that stands then
    Sought(Line),
    Drawn(Line),
    // to a draw: no line is owed
    NoMore,
    Refused(Refusal),
}
