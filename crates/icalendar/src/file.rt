// The questions on a file.
ghost use Rattle.std.specs.Prelude.{◌≡◌};
ghost use Rattle.icalendar.specs.Files.{file_read};

use components::count_events;
use lines::{all_well_formed, well_ended};
use refusals::FileQuestion;

// The most bytes that a file may have.
pub const MOST_BYTES: usize = 60000;

// How many events a file has, or the first question that it fails.
pub fn check_file(file: &[u8]) -> Result<usize, FileQuestion>
    ensures { result ≡ file_read file.now }
{
    if file.len() > MOST_BYTES {
        return Err(FileQuestion::Size);
    }
    if !well_ended(file) {
        return Err(FileQuestion::LineEnds);
    }
    if !all_well_formed(file) {
        return Err(FileQuestion::LineForms);
    }
    count_events(file).ok_or(FileQuestion::Nesting)
}
