// The session: no plan, a plan that is open, or a report that is due, from command to command.
use crate::misfit::Misfit;
use crate::opening::open;
use crate::output::complain;
use crate::overview::list_season;
use crate::running::run;
use crate::settling::Pending;
use crate::standing::Standing;
use plan_commands::PlanCommand;
use std::io;

// Where the session stands. A report that is due is no `Drop`, so each command takes the session and hands it back, beside
// what came of writing the answers.
pub(crate) enum Session {
    Idle,
    Open(Standing),
    Due(Pending),
}

// The session after an attempt to open a plan.
fn attempted(attempt: io::Result<Option<Standing>>) -> (Session, io::Result<()>) {
    match attempt {
        Ok(Some(standing)) => (Session::Open(standing), Ok(())),
        Ok(None) => (Session::Idle, Ok(())),
        Err(e) => (Session::Idle, Err(e)),
    }
}

// Obeys the command of a line where there is no plan.
fn begin(rt: &HostRuntime, number: u64, command: PlanCommand) -> (Session, io::Result<()>) {
    match command {
        PlanCommand::Open { first, last, sizes } => attempted(open(rt, first, last, sizes)),
        PlanCommand::Run(name) => attempted(run(rt, number, name)),
        PlanCommand::Report(_) | PlanCommand::Waive => {
            (Session::Idle, complain(rt, number, &Misfit::NoReport))
        }
        _ => (Session::Idle, complain(rt, number, &Misfit::NoPlan)),
    }
}

// Obeys the command of a line where a plan is open.
fn go_on(
    rt: &HostRuntime,
    number: u64,
    mut standing: Standing,
    command: PlanCommand,
) -> (Session, io::Result<()>) {
    let outcome = match command {
        PlanCommand::Load(name) => standing.load(rt, number, name),
        PlanCommand::Seek(day) => standing.seek(rt, day),
        PlanCommand::Draw(draws) => standing.draw(rt, draws),
        PlanCommand::Mark => standing.mark(rt),
        PlanCommand::Close => {
            let (pending, outcome) = Pending::of(rt, standing);
            return (Session::Due(pending), outcome);
        }
        PlanCommand::Report(_) | PlanCommand::Waive => complain(rt, number, &Misfit::NoReport),
        _ => complain(rt, number, &Misfit::OpenPlan),
    };
    (Session::Open(standing), outcome)
}

// Obeys the command of a line where a report is due.
fn end(
    rt: &HostRuntime,
    number: u64,
    pending: Pending,
    command: PlanCommand,
) -> (Session, io::Result<()>) {
    match command {
        PlanCommand::Report(size) => pending.report(rt, size),
        PlanCommand::Waive => (Session::Idle, pending.waive(rt)),
        _ => (
            Session::Due(pending),
            complain(rt, number, &Misfit::ReportDue),
        ),
    }
}

impl Session {
    // Obeys the command of a line.
    pub(crate) fn obey(
        self,
        rt: &HostRuntime,
        number: u64,
        command: PlanCommand,
    ) -> (Session, io::Result<()>) {
        if let PlanCommand::List { first, last, files } = command {
            return (self, list_season(rt, first, last, files));
        }
        match self {
            Session::Idle => begin(rt, number, command),
            Session::Open(standing) => go_on(rt, number, standing, command),
            Session::Due(pending) => end(rt, number, pending, command),
        }
    }

    // Ends the session: a plan that stands is closed, and a report that is due is waived.
    pub(crate) fn settle(self, rt: &HostRuntime) -> io::Result<()> {
        match self {
            Session::Idle => Ok(()),
            Session::Open(standing) => {
                let (pending, closed) = Pending::of(rt, standing);
                closed.and(pending.waive(rt))
            }
            Session::Due(pending) => pending.waive(rt),
        }
    }
}
