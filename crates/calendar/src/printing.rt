// What month codes and dates are printed as.
ghost use Rattle.std.specs.Prelude.{Some};
ghost use Rattle.calendar.specs.Printing.{code_text, named_text};

use crate::{MonthCode, NamedDate};
use std::fmt;

impl fmt::Display for MonthCode {
    ghost output = { λ code. Some (code_text code) };

    fn fmt<W: fmt::Write>(&self, f: &mut fmt::Formatter<W>) -> fmt::Result {
        let mark = if self.leap { "L" } else { "" };
        write!(f, "{:02}{mark}", self.number)
    }
}

impl fmt::Display for NamedDate {
    ghost output = { λ date. Some (named_text date) };

    fn fmt<W: fmt::Write>(&self, f: &mut fmt::Formatter<W>) -> fmt::Result {
        write!(f, "{:04}-{}-{:02}", self.year, self.code, self.day)
    }
}
