// The tables that a plan is lent.
ghost use Rattle.std.specs.Prelude.{◌≡◌};

use owed::Line;
use report::FaultEntry;
use runs::Places;
use series::Series;

// Each has a lifetime of its own, since the check does not let two parts of a struct be lent at once that have the same one.
#[derive(Drop)]
pub struct Tables<'s, 'f, 'q> {
    pub series: &'s mut [Series],
    pub faults: &'f mut [FaultEntry],
    pub queue: &'q mut [Line],
}

impl<'s, 'f, 'q> Tables<'s, 'f, 'q> {
    ghost use Rattle.plan.specs.Plans.{places};

    // How many places they have.
    pub(crate) fn places(&self) -> Places
        ensures { result ≡ places self.now }
    {
        Places {
            series: self.series.len(),
            faults: self.faults.len(),
            queue: self.queue.len(),
        }
    }
}
