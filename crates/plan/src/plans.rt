// A plan.
ghost use Rattle.std.specs.Prelude.{◌≡◌, ◌+◌, ◌≤◌, IfOk, IfErr, Some, None};
ghost use Rattle.std.specs.Prelude.{ℕ, List, length, take, drop};
ghost use Rattle.std.specs.List.{All};
ghost use Rattle.series.specs.Record.{Ready};
ghost use Rattle.heads.specs.Heads.{sets_of, Heads, mark_after, FirstDrawn};
ghost use Rattle.runs.specs.Plans.{accepted_in, entries_in, with_file, open_failed, opened, has_room, room_failed, load_failed, tables_full, tables_failed, seek_failed, sought, with_mark};
ghost use Rattle.calendar.specs.Sheets.{Almanac};
ghost use Rattle.runs.specs.Runs.{fresh};
ghost use Rattle.icalendar.specs.Verdicts.{verdicts};
ghost use Rattle.intake.specs.Stored.{RecordsAdded, added};
ghost use Rattle.plan.specs.Plans.{lent, places, sets_in_use, Own, Stands, LeadsOn, Untouched, load_step, seek_step, draw_step};
ghost use Rattle.plan.specs.declared.tables.Tables.{Tables};

use crate::tables::Tables;
use days::in_range;
use events::RuleShelf;
use heads::{Coming, Drawn};
use icalendar::check_file;
use intake::{Intake, Loaded, Used};
use owed::Line;
use refusals::PlanQuestion;
use report::ReportDue;
use runs::{Made, Places, Refusal};
use series::Series;
use std::marker::Model;

// The most files that are accepted, and the most places of a table that count.
const MOST: u16 = 999;

// A plan. The tables stay with their owner, who lends them at each call: it keeps nothing but numbers.
#[derive(Drop)]
pub struct Plan {
    // the window
    first: u32,
    last: u32,
    mark: Line,
    // how many files are accepted, and how many places of each table are in use
    files: u16,
    series: u16,
    faults: u16,
    queued: usize,
}

impl Model for Plan {
    ghost use Rattle.std.specs.Prelude.{◌≤◌};
    ghost use Rattle.plan.specs.Plans.{Held};

    ghost Value = { Held };

    ghost view = { λ p. record {
      standing = record { first = p.first; last = p.last; mark = p.mark; files = p.files; series = p.series; faults = p.faults };
      queued = p.queued;
    } };

    ghost invariant = { λ p. (p.files ≤ 999) × (p.series ≤ 999) × (p.faults ≤ 999) × (p.queued ≤ p.series) };
}

// Draws the first line from the tables. It writes nothing into that of the series, and takes it by `&mut` only since the check
// does not cover a `&` to what a field of a `&mut` lends.
fn draw_first<S: RuleShelf>(
    shelf: &S,
    used: Used,
    mark: Line,
    last: u32,
    series: &mut [Series],
    queue: &mut [Line],
) -> Drawn
    requires series { used.series ≤ length series.old }
    requires queue { used.queued ≤ length queue.old }
    ensures heads { (first : ℕ) → All (Ready (S.Shelf.held shelf.now)) (take used.series series.old)
        → Heads first last (sets_of (S.Shelf.held shelf.now) (take used.series series.old)) mark queue.old used.queued 0
        → Heads first last (sets_of (S.Shelf.held shelf.now) (take used.series series.old)) (mark_after mark result.line) queue.new result.queued 0 }
    ensures drawn { (first : ℕ) → All (Ready (S.Shelf.held shelf.now)) (take used.series series.old)
        → Heads first last (sets_of (S.Shelf.held shelf.now) (take used.series series.old)) mark queue.old used.queued 0
        → FirstDrawn first last (sets_of (S.Shelf.held shelf.now) (take used.series series.old)) mark result.line }
    ensures series { series.new ≡ series.old }
    ensures rest { (result.queued ≤ used.queued) × (drop used.queued queue.new ≡ drop used.queued queue.old) }
{
    let coming = Coming {
        shelf,
        series: &series[..usize::from(used.series)],
        mark,
        last,
    };
    coming.draw(queue, used.queued)
}

// Whether a table has so many free places beside those in use.
fn has_room(used: u16, more: usize, places: usize) -> bool
    ensures { result ≡ has_room used more places }
{
    usize::from(used).saturating_add(more) <= places.min(usize::from(MOST))
}

impl Plan {
    // A plan over a window from its first day to its last one, with no file.
    pub fn open(first: u32, last: u32) -> Result<Plan, PlanQuestion>
        ensures passed { IfOk result (λ plan. open_failed first last ≡ None) }
        ensures opened { IfOk result (λ plan. (plan.standing ≡ opened first last) × (plan.queued ≡ 0)) }
        ensures refused { IfErr result (λ question. open_failed first last ≡ Some question) }
        ensures stands { IfOk result (λ plan. (shelf : List Almanac) (tables : Tables) → Stands shelf first last (places tables) fresh (lent plan tables)) }
    {
        if !in_range(first) || !in_range(last) {
            return Err(PlanQuestion::WindowInRange);
        }
        if last < first {
            return Err(PlanQuestion::WindowInOrder);
        }
        Ok(Plan {
            first,
            last,
            mark: Line {
                day: first,
                series: 0,
            },
            files: 0,
            series: 0,
            faults: 0,
            queued: 0,
        })
    }

    // Where the mark stands.
    pub fn mark(&self) -> Line
        ensures { result ≡ self.now.standing.mark }
    {
        let Plan { mark, .. } = self;
        *mark
    }

    // Whether each table has all places in use, the queue one for each series.
    fn fits(&self, places: Places) -> bool
        ensures { result ≡ tables_full self.now.standing places }
    {
        let most = usize::from(MOST);
        let series = usize::from(self.series);
        series <= places.series.min(most)
            && usize::from(self.faults) <= places.faults.min(most)
            && series <= places.queue.min(most)
    }

    // Moves the mark before the lines of a day, if that is after the mark's day. Answers where the mark stands then. It reads no
    // record: a line that it jumps is looked at when it comes first in a draw.
    pub fn seek(&mut self, tables: &Tables, day: u32) -> Result<Line, PlanQuestion>
        ensures passed { IfOk result (λ stands. seek_failed self.old.standing (places tables.now) day ≡ None) }
        ensures answer { IfOk result (λ stands. stands ≡ sought self.old.standing.mark day) }
        ensures moved { IfOk result (λ stands. (self.new.standing ≡ with_mark self.old.standing stands) × (self.new.queued ≡ self.old.queued)) }
        ensures refused { IfErr result (λ question. (seek_failed self.old.standing (places tables.now) day ≡ Some question) × (self.new ≡ self.old)) }
        ensures own { (shelf : List Almanac) → Own shelf (lent self.old tables.now) → Own shelf (lent self.new tables.now) }
        ensures leads { (shelf : List Almanac) → LeadsOn shelf (seek_step day result) (lent self.old tables.now) (lent self.new tables.now) }
    {
        if !self.fits(tables.places()) {
            return Err(PlanQuestion::FullTables);
        }
        if day < self.first || self.last < day {
            return Err(PlanQuestion::DayInWindow);
        }
        if day < self.mark.day {
            return Err(PlanQuestion::DayNotPassed);
        }
        if self.mark.day < day {
            self.mark = Line { day, series: 0 };
        }
        Ok(self.mark)
    }

    // Whether the plan can load a file of so many events.
    fn check_room(&self, places: Places, events: usize) -> Result<(), PlanQuestion>
        ensures passed { IfOk result (λ _. room_failed self.now.standing places events ≡ None) }
        ensures refused { IfErr result (λ question. room_failed self.now.standing places events ≡ Some question) }
    {
        if self.files >= MOST {
            return Err(PlanQuestion::FewFiles);
        }
        if !has_room(self.series, events, places.series)
            || !has_room(self.series, events, places.queue)
        {
            return Err(PlanQuestion::RoomForSeries);
        }
        if !has_room(self.faults, events, places.faults) {
            return Err(PlanQuestion::RoomForFaults);
        }
        Ok(())
    }

    // Whether the plan can load a file.
    fn check_load(&self, places: Places, file: &[u8]) -> Result<(), Refusal>
        ensures passed { IfOk result (λ _. load_failed self.now.standing places file.now ≡ None) }
        ensures refused { IfErr result (λ question. load_failed self.now.standing places file.now ≡ Some question) }
    {
        if !self.fits(places) {
            return Err(PlanQuestion::FullTables.into());
        }
        let events = check_file(file)?;
        self.check_room(places, events)?;
        Ok(())
    }

    // Loads a file: each of its events becomes a series or a fault entry, in their order. Answers how many there are of each; the
    // mark stays.
    pub fn load<S: RuleShelf>(
        &mut self,
        shelf: &S,
        tables: &mut Tables,
        file: &[u8],
    ) -> Result<Made, Refusal>
        ensures passed { IfOk result (λ made. load_failed self.old.standing (places tables.old) file.now ≡ None) }
        ensures series_made { IfOk result (λ made. made.series ≡ length (accepted_in (verdicts (S.Shelf.held shelf.now) (self.old.standing.files + 1) file.now))) }
        ensures faults_made { IfOk result (λ made. made.faults ≡ length (entries_in (self.old.standing.files + 1) 1 (verdicts (S.Shelf.held shelf.now) (self.old.standing.files + 1) file.now))) }
        ensures plan { IfOk result (λ made. self.new.standing ≡ with_file self.old.standing made.series made.faults) }
        ensures series { IfOk result (λ made. RecordsAdded (S.Shelf.held shelf.now) self.old.standing.series (accepted_in (verdicts (S.Shelf.held shelf.now) (self.old.standing.files + 1) file.now)) tables.old.series.now tables.new.series.now) }
        ensures faults { IfOk result (λ made. tables.new.faults.now ≡ added self.old.standing.faults (entries_in (self.old.standing.files + 1) 1 (verdicts (S.Shelf.held shelf.now) (self.old.standing.files + 1) file.now)) tables.old.faults.now) }
        ensures untouched { Untouched (lent self.old tables.old) (lent self.new tables.new) }
        ensures own { Own (S.Shelf.held shelf.now) (lent self.old tables.old) → Own (S.Shelf.held shelf.now) (lent self.new tables.new) }
        ensures refused { IfErr result (λ question. (load_failed self.old.standing (places tables.old) file.now ≡ Some question) × (lent self.new tables.new ≡ lent self.old tables.old)) }
        ensures leads { LeadsOn (S.Shelf.held shelf.now) (load_step file.now result) (lent self.old tables.old) (lent self.new tables.new) }
    {
        self.check_load(tables.places(), file)?;
        let intake = Intake {
            shelf,
            number: self.files + 1,
            file,
            mark: self.mark,
            last: self.last,
        };
        let used = Used {
            series: self.series,
            faults: self.faults,
            queued: self.queued,
        };
        let Loaded { made, queued } = intake.load(used, tables.series, tables.faults, tables.queue);
        self.files += 1;
        self.series += made.series;
        self.faults += made.faults;
        self.queued = queued;
        Ok(made)
    }

    // Draws the first of the lines that are owed, on which the mark stands then, or answers none where none is owed.
    pub fn draw<S: RuleShelf>(
        &mut self,
        shelf: &S,
        tables: &mut Tables,
    ) -> Result<Option<Line>, PlanQuestion>
        ensures passed { IfOk result (λ line. tables_failed self.old.standing (places tables.old) ≡ None) }
        ensures moved { IfOk result (λ line. self.new.standing ≡ with_mark self.old.standing (mark_after self.old.standing.mark line)) }
        ensures first { IfOk result (λ line. Own (S.Shelf.held shelf.now) (lent self.old tables.old)
            → FirstDrawn self.old.standing.first self.old.standing.last (sets_in_use (S.Shelf.held shelf.now) (lent self.old tables.old)) self.old.standing.mark line) }
        ensures own { Own (S.Shelf.held shelf.now) (lent self.old tables.old) → Own (S.Shelf.held shelf.now) (lent self.new tables.new) }
        ensures kept { (tables.new.series.now ≡ tables.old.series.now) × (tables.new.faults.now ≡ tables.old.faults.now) }
        ensures untouched { Untouched (lent self.old tables.old) (lent self.new tables.new) }
        ensures refused { IfErr result (λ question. (tables_failed self.old.standing (places tables.old) ≡ Some question) × (lent self.new tables.new ≡ lent self.old tables.old)) }
        ensures leads { LeadsOn (S.Shelf.held shelf.now) (draw_step result) (lent self.old tables.old) (lent self.new tables.new) }
    {
        if !self.fits(tables.places()) {
            return Err(PlanQuestion::FullTables);
        }
        let used = Used {
            series: self.series,
            faults: self.faults,
            queued: self.queued,
        };
        let drawn = draw_first(
            shelf,
            used,
            self.mark,
            self.last,
            tables.series,
            tables.queue,
        );
        self.queued = drawn.queued;
        self.mark = drawn.line.unwrap_or(self.mark);
        Ok(drawn.line)
    }

    // Uses the plan up, and hands over the report that is due.
    pub fn close(self) -> ReportDue
        ensures { result ≡ self.standing.faults }
    {
        ReportDue::of(usize::from(self.faults))
    }
}
