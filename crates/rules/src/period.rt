// The periods of a rule.

// A calendar year, a month of one by its place, a week by its first day, or a day.
#[derive(Clone, Copy)]
pub enum Period {
    Year(u32),
    Month(u32, u8),
    Week(u32),
    Day(u32),
}

// Days in a row, of any sheet. That they are few is asked by what adds them to a queue: a type for it would stand
// beside this one, which the definitions speak of.
#[derive(Clone, Copy)]
pub struct Stretch {
    pub from: u32,
    pub size: u32,
}
