// Structs of two and of three fields are entries by their derived order alone.
ghost use Rattle.std.specs.Prelude.{if◌then◌else◌, nat_eq, nat_lt};
ghost use Rattle.std.proofs.Common.{rules};
ghost use Rattle.queue.specs.Numbers.{pair_strict, triple_strict};

use super::*;

// A day on which a series is due.
#[derive(Clone, Copy, Debug, PartialEq, Eq, PartialOrd, Ord)]
struct Due {
    day: u32,
    series: u32,
}

impl Entry for Due {
    ghost before = { λ x y. (if nat_eq x.day y.day then nat_lt x.series y.series else nat_lt x.day y.day) };

    ghost order = { pair_strict (λ x. x.day) (λ x. x.series) (λ x y d s i. record { day = d i; series = s i }) };

    ghost says = { Prim.search rules };
}

// A minute of a day at which a series is due.
#[derive(Clone, Copy, Debug, PartialEq, Eq, PartialOrd, Ord)]
struct Call {
    day: u32,
    minute: u16,
    series: u32,
}

impl Entry for Call {
    ghost before = { λ x y. (if nat_eq x.day y.day then (if nat_eq x.minute y.minute then nat_lt x.series y.series else nat_lt x.minute y.minute) else nat_lt x.day y.day) };

    ghost order = { triple_strict (λ x. x.day) (λ x. x.minute) (λ x. x.series) (λ x y d m s i. record { day = d i; minute = m i; series = s i }) };

    ghost says = { Prim.search rules };
}

#[test]
fn series_of_one_day_come_by_number(rt: HostRuntime) {
    let mut slots = [Due { day: 0, series: 0 }; 3];
    let mut queue = Queue::new(&mut slots);
    queue.push(Due { day: 5, series: 9 });
    queue.push(Due { day: 5, series: 2 });
    queue.push(Due { day: 4, series: 7 });
    assert_eq!(rt; queue.pop(), Some(Due { day: 4, series: 7 }));
    assert_eq!(rt; queue.pop(), Some(Due { day: 5, series: 2 }));
    assert_eq!(rt; queue.pop(), Some(Due { day: 5, series: 9 }));
    assert!(rt; queue.pop().is_none());
}

#[test]
fn minutes_come_before_series(rt: HostRuntime) {
    let late = Call {
        day: 5,
        minute: 720,
        series: 1,
    };
    let early = Call {
        day: 5,
        minute: 60,
        series: 8,
    };
    let mut slots = [late; 2];
    push(&mut slots, 1, early);
    assert_eq!(rt; first_from(&mut slots, 2, late), Some(late));
}
