// What a date's fault and a weekday are printed as.
ghost use Rattle.std.specs.Prelude.{Some};
ghost use Rattle.days.specs.Numbers.{letters};
ghost use Rattle.days.specs.Faults.{fault_text};

use crate::digits::DateFault;
use crate::weekday::Weekday;
use std::fmt;

impl fmt::Display for DateFault {
    ghost output = { λ fault. Some (fault_text fault) };

    fn fmt<W: fmt::Write>(&self, f: &mut fmt::Formatter<W>) -> fmt::Result {
        match self {
            DateFault::Length => write!(f, "a date has eight digits"),
            DateFault::NoDigit(at) => {
                let place = at.saturating_add(1);
                write!(f, "byte {place} of the date is no digit")
            }
            DateFault::NoSuchDay => write!(f, "there is no such date"),
        }
    }
}

impl fmt::Display for Weekday {
    ghost output = { λ weekday. Some (letters weekday) };

    fn fmt<W: fmt::Write>(&self, f: &mut fmt::Formatter<W>) -> fmt::Result {
        let letters = self.letters();
        write!(f, "{letters}")
    }
}
