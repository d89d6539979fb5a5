// What is wrong with a command on a plan.
ghost use Rattle.std.specs.Prelude.{◌≡◌, Some};
ghost use Rattle.plan_commands.specs.Complaints.{complaint_text};
ghost use Rattle.plan_commands.specs.declared.complaint.PlanComplaint.TheVariants.{BadDate};

use days::digits::DateFault;
use std::fmt;

// Why a command on a plan cannot be used.
#[derive(Clone, Copy, Debug, PartialEq, Eq)]
pub enum PlanComplaint {
    OpenWords,
    LoadWords,
    SeekWords,
    DrawWords,
    // mark, close or waive
    AloneWords,
    ReportWords,
    ListWords,
    RunWords,
    BadDate(DateFault),
    BadSize,
    BadCount,
    BadBytes,
    NotInScript,
}

impl From<DateFault> for PlanComplaint {
    ghost from_gives = { λ fault complaint. complaint ≡ BadDate fault };

    fn from(fault: DateFault) -> PlanComplaint {
        Self::BadDate(fault)
    }
}

impl fmt::Display for PlanComplaint {
    ghost output = { λ e. Some (complaint_text e) };

    fn fmt<W: fmt::Write>(&self, f: &mut fmt::Formatter<W>) -> fmt::Result {
        match self {
            PlanComplaint::OpenWords => write!(
                f,
                "open takes two dates, and three table sizes if any, as open 20140101 20141231 999 999 999"
            ),
            PlanComplaint::LoadWords => write!(f, "load takes a file, as load crew.ics"),
            PlanComplaint::SeekWords => write!(f, "seek takes a date, as seek 20140301"),
            PlanComplaint::DrawWords => {
                write!(f, "draw takes a number of lines or all, as draw 10")
            }
            PlanComplaint::AloneWords => write!(f, "mark, close and waive take nothing"),
            PlanComplaint::ReportWords => write!(f, "report takes a size if any, as report 190"),
            PlanComplaint::ListWords => write!(
                f,
                "list takes two dates and files, as list 20140101 20141231 crew.ics"
            ),
            PlanComplaint::RunWords => write!(f, "run takes a script, as run season.txt"),
            PlanComplaint::BadDate(fault) => write!(f, "{fault}"),
            PlanComplaint::BadSize => write!(f, "a table size is a number from 0 to 9999"),
            PlanComplaint::BadCount => {
                write!(f, "a number of draws is from 1 to 1000000, or all")
            }
            PlanComplaint::BadBytes => {
                write!(f, "a report's size is a number from 0 to 1000000")
            }
            PlanComplaint::NotInScript => {
                write!(f, "a script has open, load, seek and draw with a number")
            }
        }
    }
}
