// What does not fit the session as it stands.
ghost use Rattle.std.specs.Prelude.{Some};
ghost use Rattle.season.specs.Misfits.{misfit_text};

use std::fmt;

// Why a command cannot be used as the session stands.
#[derive(Clone, Copy, Debug, PartialEq, Eq)]
pub(crate) enum Misfit {
    NoPlan,
    OpenPlan,
    ReportDue,
    NoReport,
}

impl fmt::Display for Misfit {
    ghost output = { λ misfit. Some (misfit_text misfit) };

    fn fmt<W: fmt::Write>(&self, f: &mut fmt::Formatter<W>) -> fmt::Result {
        match self {
            Misfit::NoPlan => write!(f, "no plan is open"),
            Misfit::OpenPlan => write!(f, "a plan is open already"),
            Misfit::ReportDue => write!(f, "a report is due"),
            Misfit::NoReport => write!(f, "no report is due"),
        }
    }
}
