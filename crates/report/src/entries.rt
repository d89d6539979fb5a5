// The line of a fault.
ghost use Rattle.std.specs.Prelude.{◌≡◌, ◌<◌};
ghost use Rattle.report.specs.Lines.{digit_at, fault_text, entry_line};

use icalendar::Fault;

// A fault of an accepted file's event.
#[derive(Clone, Copy, Debug, PartialEq, Eq)]
pub struct FaultEntry {
    // the number of the file, from 1
    pub file: u16,
    // the number of the event within its file, from 1
    pub event: u16,
    pub fault: Fault,
}

// The decimal digit of a number at the place of this worth, as a byte.
fn digit_at(number: usize, worth: usize) -> u8
    requires { 0 < worth }
    ensures { result ≡ digit_at number worth }
{
    b'0' + (number / worth % 10) as u8
}

// The place with five digits, the letter of the layer, and the number with two.
pub fn fault_text(fault: Fault) -> [u8; 10]
    ensures { result ≡ fault_text fault }
{
    let Fault { place, failed } = fault;
    let number = usize::from(failed.number());
    [
        digit_at(place, 10_000),
        digit_at(place, 1000),
        digit_at(place, 100),
        digit_at(place, 10),
        digit_at(place, 1),
        b' ',
        failed.letter(),
        b' ',
        digit_at(number, 10),
        digit_at(number, 1),
    ]
}

// The line of an entry: file and event with three digits, and the fault.
pub(crate) fn entry_line(entry: &FaultEntry) -> [u8; 19]
    ensures { result ≡ entry_line entry.now }
{
    let file = usize::from(entry.file);
    let event = usize::from(entry.event);
    let [
        p1,
        p2,
        p3,
        p4,
        p5,
        after_place,
        letter,
        after_letter,
        n1,
        n2,
    ] = fault_text(entry.fault);
    [
        digit_at(file, 100),
        digit_at(file, 10),
        digit_at(file, 1),
        b' ',
        digit_at(event, 100),
        digit_at(event, 10),
        digit_at(event, 1),
        b' ',
        p1,
        p2,
        p3,
        p4,
        p5,
        after_place,
        letter,
        after_letter,
        n1,
        n2,
        b'\n',
    ]
}
