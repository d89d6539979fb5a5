// The numbers of the questions, and the letters of their layers.
ghost use Rattle.std.specs.Prelude.{◌≡◌};
ghost use Rattle.refusals.specs.Numbers.{file_number, plan_number, event_number, rule_number, calendar_number, number, letter};

use crate::asked::{
    CalendarQuestion, EventQuestion, Failed, FileQuestion, PlanQuestion, RuleQuestion,
};

impl FileQuestion {
    pub fn number(self) -> u8
        ensures { result ≡ file_number self }
    {
        self as u8
    }
}

impl PlanQuestion {
    pub fn number(self) -> u8
        ensures { result ≡ plan_number self }
    {
        self as u8
    }
}

impl EventQuestion {
    pub fn number(self) -> u8
        ensures { result ≡ event_number self }
    {
        self as u8
    }
}

impl RuleQuestion {
    pub fn number(self) -> u8
        ensures { result ≡ rule_number self }
    {
        self as u8
    }
}

impl CalendarQuestion {
    pub fn number(self) -> u8
        ensures { result ≡ calendar_number self }
    {
        self as u8
    }
}

impl Failed {
    pub fn number(self) -> u8
        ensures { result ≡ number self }
    {
        match self {
            Failed::Event(question) => question.number(),
            Failed::Rule(question) => question.number(),
            Failed::Calendar(question) => question.number(),
        }
    }

    // The letter of the layer, as a byte.
    pub fn letter(self) -> u8
        ensures { result ≡ letter self }
    {
        match self {
            Failed::Event(_) => b'E',
            Failed::Rule(_) => b'R',
            Failed::Calendar(_) => b'C',
        }
    }
}
