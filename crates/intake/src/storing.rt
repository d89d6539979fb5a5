// The events of a file, stored one after another.
ghost use Rattle.std.specs.Prelude.{◌≡◌, ◌+◌, ◌<◌, ◌≤◌, length, set, IfOk, IfErr};
ghost use Rattle.icalendar.specs.Files.{events_of};
ghost use Rattle.icalendar.specs.Verdicts.{verdicts};
ghost use Rattle.runs.specs.Plans.{accepted_in, entries_in};
ghost use Rattle.intake.specs.Stored.{RecordsStored, stored, entry, one_series, one_entry};

use events::RuleShelf;
use icalendar::{Fault, read_event};
use report::FaultEntry;
use runs::Made;
use series::Series;
use vevent::FileEvents;

// Stores what becomes of an event of the file of a number behind what the events before it made.
fn store(
    verdict: Result<Series, Fault>,
    number: u16,
    made: Made,
    series: &mut [Series],
    faults: &mut [FaultEntry],
) -> Made
    requires series { made.series < length series.old }
    requires faults { made.faults < length faults.old }
    requires few { made.series + made.faults < 999 }
    ensures ok { IfOk verdict (λ s. (series.new ≡ set series.old made.series s) × (faults.new ≡ faults.old)) }
    ensures err { IfErr verdict (λ fault. (series.new ≡ series.old) × (faults.new ≡ set faults.old made.faults (entry number (made.series + made.faults + 1) fault))) }
    ensures made { (IfOk verdict (λ s. result ≡ one_series made)) × IfErr verdict (λ fault. result ≡ one_entry made) }
{
    match verdict {
        Ok(kept) => {
            series[usize::from(made.series)] = kept;
            Made {
                series: made.series + 1,
                ..made
            }
        }
        Err(fault) => {
            // Each event before this one made a record or an entry.
            let event = made.series + made.faults + 1;
            faults[usize::from(made.faults)] = FaultEntry {
                file: number,
                event,
                fault,
            };
            Made {
                faults: made.faults + 1,
                ..made
            }
        }
    }
}

// Makes each event of the file of a number a series record or a fault entry, each in the first places of a table, and answers
// how many there are of each. The tables have a place of each kind for each event.
pub fn store_events<S: RuleShelf>(
    shelf: &S,
    number: u16,
    file: &[u8],
    series: &mut [Series],
    faults: &mut [FaultEntry],
) -> Made
    requires series { length (events_of file.now) ≤ length series.old }
    requires faults { length (events_of file.now) ≤ length faults.old }
    requires few { length (events_of file.now) ≤ 999 }
    ensures series_made { result.series ≡ length (accepted_in (verdicts (S.Shelf.held shelf.now) number file.now)) }
    ensures faults_made { result.faults ≡ length (entries_in number 1 (verdicts (S.Shelf.held shelf.now) number file.now)) }
    ensures one_each { result.series + result.faults ≡ length (events_of file.now) }
    ensures series { RecordsStored (S.Shelf.held shelf.now) (accepted_in (verdicts (S.Shelf.held shelf.now) number file.now)) series.old series.new }
    ensures faults { faults.new ≡ stored (entries_in number 1 (verdicts (S.Shelf.held shelf.now) number file.now)) faults.old }
{
    let mut made = Made {
        series: 0,
        faults: 0,
    };
    for event in FileEvents::of(file) {
        made = store(
            read_event(shelf, &event, number),
            number,
            made,
            series,
            faults,
        );
    }
    made
}
