// A file, loaded into a plan's tables.
ghost use Rattle.std.specs.Prelude.{◌≡◌, ◌+◌, ◌≤◌, ℕ, length, take, drop};
ghost use Rattle.std.specs.List.{All};
ghost use Rattle.icalendar.specs.Files.{events_of};
ghost use Rattle.icalendar.specs.Verdicts.{verdicts};
ghost use Rattle.series.specs.Record.{Ready};
ghost use Rattle.heads.specs.Heads.{sets_of, Heads};
ghost use Rattle.runs.specs.Plans.{accepted_in, entries_in};
ghost use Rattle.intake.specs.Stored.{RecordsAdded, added};

use crate::storing::store_events;
use events::RuleShelf;
use heads::Coming;
use owed::Line;
use report::FaultEntry;
use runs::Made;
use series::Series;

// How many places of the series, fault and queue tables are in use.
#[derive(Clone, Copy, Debug, PartialEq, Eq)]
pub struct Used {
    pub series: u16,
    pub faults: u16,
    pub queued: usize,
}

// What a file made, and how many heads there are then.
#[derive(Clone, Copy, Debug, PartialEq, Eq)]
pub struct Loaded {
    pub made: Made,
    pub queued: usize,
}

// A file that is to be loaded over a shelf, with its number, for a plan with this mark and this last day of its window.
#[derive(Drop)]
pub struct Intake<'a, S> {
    pub shelf: &'a S,
    pub number: u16,
    pub file: &'a [u8],
    pub mark: Line,
    pub last: u32,
}

// Puts heads for the series past the first `from` into the queue. Answers how many heads there are then.
fn queue_new<S: RuleShelf>(
    coming: &Coming<S>,
    queue: &mut [Line],
    queued: usize,
    from: u16,
    to: u16,
) -> usize
    requires queued { (queued ≤ from) × (from ≤ to) }
    requires room { to ≤ length queue.old }
    requires all { length coming.now.series.now ≡ to }
    ensures heads { (first : ℕ) → All (Ready (S.Shelf.held coming.now.shelf.now)) coming.now.series.now
        → Heads first coming.now.last (sets_of (S.Shelf.held coming.now.shelf.now) (take from coming.now.series.now)) coming.now.mark queue.old queued 0
        → Heads first coming.now.last (sets_of (S.Shelf.held coming.now.shelf.now) coming.now.series.now) coming.now.mark queue.new result 0 }
    ensures rest { (result ≤ to) × (drop to queue.new ≡ drop to queue.old) }
{
    let mut left = queued;
    for k in from..to {
        let known = Coming {
            series: &coming.series[..usize::from(k) + 1],
            ..*coming
        };
        left = known.refill(queue, left, k + 1);
    }
    left
}

impl<'a, S: RuleShelf> Intake<'a, S> {
    // Makes each event of the file a series record or a fault entry past those in use.
    fn store(&self, used: Used, series: &mut [Series], faults: &mut [FaultEntry]) -> Made
        requires series { used.series + length (events_of self.now.file.now) ≤ length series.old }
        requires faults { used.faults + length (events_of self.now.file.now) ≤ length faults.old }
        requires few { length (events_of self.now.file.now) ≤ 999 }
        ensures series_made { result.series ≡ length (accepted_in (verdicts (S.Shelf.held self.now.shelf.now) self.now.number self.now.file.now)) }
        ensures faults_made { result.faults ≡ length (entries_in self.now.number 1 (verdicts (S.Shelf.held self.now.shelf.now) self.now.number self.now.file.now)) }
        ensures one_each { result.series + result.faults ≡ length (events_of self.now.file.now) }
        ensures series { RecordsAdded (S.Shelf.held self.now.shelf.now) used.series (accepted_in (verdicts (S.Shelf.held self.now.shelf.now) self.now.number self.now.file.now)) series.old series.new }
        ensures faults { faults.new ≡ added used.faults (entries_in self.now.number 1 (verdicts (S.Shelf.held self.now.shelf.now) self.now.number self.now.file.now)) faults.old }
    {
        store_events(
            self.shelf,
            self.number,
            self.file,
            &mut series[usize::from(used.series)..],
            &mut faults[usize::from(used.faults)..],
        )
    }

    // Makes each event of the file a series record or a fault entry past those in use, and puts heads for the new series into
    // the queue. Answers how many there are of each, and how many heads there are then. There is a place of each kind for each
    // event.
    pub fn load(
        &self,
        used: Used,
        series: &mut [Series],
        faults: &mut [FaultEntry],
        queue: &mut [Line],
    ) -> Loaded
        requires series { (used.series + length (events_of self.now.file.now) ≤ length series.old) × (used.series + length (events_of self.now.file.now) ≤ 999) }
        requires faults { (used.faults + length (events_of self.now.file.now) ≤ length faults.old) × (used.faults + length (events_of self.now.file.now) ≤ 999) }
        requires queue { (used.series + length (events_of self.now.file.now) ≤ length queue.old) × (used.queued ≤ used.series) }
        ensures series_made { result.made.series ≡ length (accepted_in (verdicts (S.Shelf.held self.now.shelf.now) self.now.number self.now.file.now)) }
        ensures faults_made { result.made.faults ≡ length (entries_in self.now.number 1 (verdicts (S.Shelf.held self.now.shelf.now) self.now.number self.now.file.now)) }
        ensures one_each { result.made.series + result.made.faults ≡ length (events_of self.now.file.now) }
        ensures series { RecordsAdded (S.Shelf.held self.now.shelf.now) used.series (accepted_in (verdicts (S.Shelf.held self.now.shelf.now) self.now.number self.now.file.now)) series.old series.new }
        ensures faults { faults.new ≡ added used.faults (entries_in self.now.number 1 (verdicts (S.Shelf.held self.now.shelf.now) self.now.number self.now.file.now)) faults.old }
        ensures heads { (first : ℕ) → All (Ready (S.Shelf.held self.now.shelf.now)) (take used.series series.old)
            → Heads first self.now.last (sets_of (S.Shelf.held self.now.shelf.now) (take used.series series.old)) self.now.mark queue.old used.queued 0
            → All (Ready (S.Shelf.held self.now.shelf.now)) (take (used.series + result.made.series) series.new)
            × Heads first self.now.last (sets_of (S.Shelf.held self.now.shelf.now) (take (used.series + result.made.series) series.new)) self.now.mark queue.new result.queued 0 }
        ensures rest { (result.queued ≤ used.series + result.made.series) × (drop (used.series + result.made.series) queue.new ≡ drop (used.series + result.made.series) queue.old) }
    {
        let made = self.store(used, series, faults);
        let count = used.series + made.series;
        let coming = Coming {
            shelf: self.shelf,
            series: &series[..usize::from(count)],
            mark: self.mark,
            last: self.last,
        };
        let queued = queue_new(&coming, queue, used.queued, used.series, count);
        Loaded { made, queued }
    }
}
