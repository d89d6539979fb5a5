// A BEGIN and an END, read with their values.
use crate::kind::{Kind, kind_of};
use lines::Cursor;
use text::reads;

// The value is read without the parameters before it and across a fold, and the name in any letter case.
#[test]
fn a_begin_or_end_comes_with_its_value(rt: HostRuntime) {
    let begin = Cursor::new(b"begin;X=\"a:b\":VEV\r\n ENT\r\nEND:VEVENT\r\n");
    assert!(rt; matches!(kind_of(begin), Kind::Begin(name) if reads(name, b"VEVENT")));
    let end = Cursor::new(b"END:VALARM\r\n");
    assert!(rt; matches!(kind_of(end), Kind::End(name) if reads(name, b"VALARM")));
    assert!(rt; matches!(kind_of(Cursor::new(b"ENDING:VALARM\r\n")), Kind::Other));
}
