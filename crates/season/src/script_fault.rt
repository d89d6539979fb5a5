// What is wrong with a script.
use crate::files::Unread;
use crate::misfit::Misfit;
use plan_commands::PlanComplaint;
use std::alloc::{AllocError, AllocFailed};
use std::fmt;

// Why a script cannot be used.
#[derive(Drop)]
pub(crate) enum ScriptFault {
    Unread(Unread),
    TooLarge,
    NotText,
    // it has no command
    Empty,
    // on the line of this number
    Line(usize, LineFault),
}

// Why a line of a script cannot be used.
#[derive(Drop)]
pub(crate) enum LineFault {
    Words(PlanComplaint),
    State(Misfit),
    // its file
    File(Unread),
    OutOfMemory(AllocError),
}

impl From<PlanComplaint> for LineFault {
    fn from(complaint: PlanComplaint) -> LineFault {
        LineFault::Words(complaint)
    }
}

impl From<Unread> for LineFault {
    fn from(unread: Unread) -> LineFault {
        LineFault::File(unread)
    }
}

impl From<AllocError> for LineFault {
    fn from(memory: AllocError) -> LineFault {
        LineFault::OutOfMemory(memory)
    }
}

impl<T: Drop> From<AllocFailed<T>> for LineFault {
    fn from(failed: AllocFailed<T>) -> LineFault {
        LineFault::OutOfMemory(AllocError::from(failed))
    }
}

impl fmt::Display for LineFault {
    fn fmt<W: fmt::Write>(&self, f: &mut fmt::Formatter<W>) -> fmt::Result {
        match self {
            LineFault::Words(complaint) => write!(f, "{complaint}"),
            LineFault::State(misfit) => write!(f, "{misfit}"),
            LineFault::File(unread) => write!(f, "{unread}"),
            LineFault::OutOfMemory(e) => write!(f, "{e}"),
        }
    }
}

impl fmt::Display for ScriptFault {
    fn fmt<W: fmt::Write>(&self, f: &mut fmt::Formatter<W>) -> fmt::Result {
        match self {
            ScriptFault::Unread(unread) => write!(f, "{unread}"),
            ScriptFault::TooLarge => write!(f, "the script has more than 60000 bytes"),
            ScriptFault::NotText => write!(f, "the script is not UTF-8 text"),
            ScriptFault::Empty => write!(f, "the script has no command"),
            ScriptFault::Line(number, fault) => write!(f, "script line {number}: {fault}"),
        }
    }
}
