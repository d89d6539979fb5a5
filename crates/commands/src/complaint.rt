// What is wrong with a line that cannot be used.
ghost use Rattle.std.specs.Prelude.{◌≡◌, Some};
ghost use Rattle.commands.specs.Complaints.{complaint_text};
ghost use Rattle.commands.specs.declared.complaint.Complaint.TheVariants.{BadDate};

use days::digits::DateFault;
use std::fmt;

// Why a command cannot be used.
#[derive(Clone, Copy, Debug, PartialEq, Eq)]
pub enum Complaint {
    Unknown,
    DateWords,
    DayWords,
    YearWords,
    CheckWords,
    DaysWords,
    BadDate(DateFault),
    BadYear,
    BadCode,
    BadDay,
    NoCalendar,
}

impl From<DateFault> for Complaint {
    ghost from_gives = { λ fault complaint. complaint ≡ BadDate fault };

    fn from(fault: DateFault) -> Complaint {
        Self::BadDate(fault)
    }
}

impl fmt::Display for Complaint {
    ghost output = { λ e. Some (complaint_text e) };

    fn fmt<W: fmt::Write>(&self, f: &mut fmt::Formatter<W>) -> fmt::Result {
        match self {
            Complaint::Unknown => write!(f, "the commands are date, day, year, check and days"),
            Complaint::DateWords => write!(f, "date takes a date, as date 20140208"),
            Complaint::DayWords => write!(
                f,
                "day takes a calendar, a year, a month code and a day, as day hebrew 5774 5L 8"
            ),
            Complaint::YearWords => write!(
                f,
                "year takes a calendar and a year, as year hebrew 5774"
            ),
            Complaint::CheckWords => write!(f, "check takes a file, as check crew.ics"),
            Complaint::DaysWords => write!(
                f,
                "days takes a file and two dates, as days crew.ics 20140101 20141231"
            ),
            Complaint::BadDate(fault) => write!(f, "{fault}"),
            Complaint::BadYear => write!(f, "the year is no number of 32 bits"),
            Complaint::BadCode => write!(f, "a month code is 1 to 13, with or without L"),
            Complaint::BadDay => write!(f, "the day is no number from 0 to 255"),
            Complaint::NoCalendar => write!(f, "no calendar on the shelf bears that name"),
        }
    }
}
