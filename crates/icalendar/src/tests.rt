// A file that is read whole.
use super::*;
use calendar::Empty;
use refusals::{CalendarQuestion, Failed, FileQuestion};
use std::test::Fail;

// Two events of 1 January 2024, which is day 738,886, the second with a rule on line 7.
const FILE: &[u8] =
    b"BEGIN:VCALENDAR\r\nBEGIN:VEVENT\r\nDTSTART;VALUE=DATE:20240101\r\nEND:VEVENT\r\nBEGIN:VEVENT\r\nDTSTART;VALUE=DATE:20240101\r\nRRULE:FREQ=DAILY\r\nEND:VEVENT\r\nEND:VCALENDAR\r\n";

// On a shelf with no calendar, the event without a rule is kept and the other one is not.
#[test]
fn each_event_is_kept_or_refused(rt: HostRuntime) -> Result<(), Fail> {
    let found = read_file(rt.alloc(), &Empty, FILE, 1).map_err(|_| Fail::new(
        "a file that is not read",
    ))?;
    match found.as_slice() {
        [Ok(series), Err(fault)] => {
            assert_eq!(rt; series.start.day(), 738_886);
            assert_eq!(rt; fault.place, 7);
            assert_eq!(rt; fault.failed, Failed::Calendar(CalendarQuestion::OnShelf));
        }
        _ => return Err(Fail::new("other than one event kept and one refused")),
    }
    Ok(())
}

#[test]
fn half_a_file_is_refused(rt: HostRuntime) {
    assert!(rt;
        matches!(
            read_file(rt.alloc(), &Empty, b"BEGIN:VCALENDAR\r\n", 1),
            Err(ReadError::Refused(FileQuestion::Nesting))
        )
    );
}
