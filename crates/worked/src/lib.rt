// Worked dates: a list of days with their dates, and of rules with their days, proved of the definitions.
#![tactic(auto)]

ghost use Rattle.worked.specs.Dates.{AllHold, worked_dates};

// Every worked date holds, and every rule gives its worked days.
pub fn worked_dates_hold()
    ensures { AllHold worked_dates }
{}
