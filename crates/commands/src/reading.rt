// Commands, read from their words.
ghost use Rattle.std.specs.Prelude.{◌≡◌, List, ℕ};
ghost use Rattle.commands.specs.Words.{Gives};
ghost use Rattle.commands.specs.Commands.{meant, year_read, day_read, named_read, date_command, day_command, year_command, check_command, days_command, file_command, command_of, command_read};

use crate::codes::read_code;
use crate::{Command, Complaint, DateQuery, FileQuery, Numbers};
use calendar::NamedDate;
use days::digits::read_date;

fn read_year(word: &[u8], numbers: Numbers) -> Result<u32, Complaint>
    ensures { result ≡ year_read numbers word.now }
{
    numbers.read(word, u32::MAX).ok_or(Complaint::BadYear)
}

// A year's twin but for its bound, its complaint and its type: a function over all three would be no plainer.
fn read_day(word: &[u8], numbers: Numbers) -> Result<u8, Complaint>
    ensures { result ≡ day_read numbers word.now }
{
    numbers
        .read(word, u32::from(u8::MAX))
        .and_then(|day| u8::try_from(day).ok())
        .ok_or(Complaint::BadDay)
}

fn read_named(
    year: &[u8],
    code: &[u8],
    day: &[u8],
    numbers: Numbers,
) -> Result<NamedDate, Complaint>
    ensures { result ≡ named_read numbers year.now code.now day.now }
{
    let year = read_year(year, numbers)?;
    let code = read_code(code).ok_or(Complaint::BadCode)?;
    let day = read_day(day, numbers)?;
    Ok(NamedDate { year, code, day })
}

// The five below take words and numbers apart: a struct of both would ask for `can_next` where it is made, and need a
// `next` of its own with a clause about the words that are left, so that it would be no plainer.

// date DATE
fn date_command<'a, W: Iterator<Item = &'a [u8]>>(mut words: W) -> Result<Command<'a>, Complaint>
    requires { W.can_next words }
    ensures { (ws : List (List ℕ)) → Gives W.next_gives words ws → meant result ≡ date_command ws }
{
    let date = words.next().ok_or(Complaint::DateWords)?;
    if words.next().is_some() {
        return Err(Complaint::DateWords);
    }
    Ok(Command::Dates(DateQuery::Date(read_date(date)?)))
}

// day CALENDAR YEAR CODE DAY
fn day_command<'a, W: Iterator<Item = &'a [u8]>>(
    mut words: W,
    numbers: Numbers,
) -> Result<Command<'a>, Complaint>
    requires { W.can_next words }
    ensures { (ws : List (List ℕ)) → Gives W.next_gives words ws → meant result ≡ day_command numbers ws }
{
    // An iterator has no method that takes the four words at once, and to gather them first is no plainer.
    let name = words.next().ok_or(Complaint::DayWords)?;
    let year = words.next().ok_or(Complaint::DayWords)?;
    let code = words.next().ok_or(Complaint::DayWords)?;
    let day = words.next().ok_or(Complaint::DayWords)?;
    if words.next().is_some() {
        return Err(Complaint::DayWords);
    }
    let date = read_named(year, code, day, numbers)?;
    Ok(Command::Dates(DateQuery::Day(name, date)))
}

// year CALENDAR YEAR
fn year_command<'a, W: Iterator<Item = &'a [u8]>>(
    mut words: W,
    numbers: Numbers,
) -> Result<Command<'a>, Complaint>
    requires { W.can_next words }
    ensures { (ws : List (List ℕ)) → Gives W.next_gives words ws → meant result ≡ year_command numbers ws }
{
    let name = words.next().ok_or(Complaint::YearWords)?;
    let year = words.next().ok_or(Complaint::YearWords)?;
    if words.next().is_some() {
        return Err(Complaint::YearWords);
    }
    let year = read_year(year, numbers)?;
    Ok(Command::Dates(DateQuery::Year(name, year)))
}

// check FILE
fn check_command<'a, W: Iterator<Item = &'a [u8]>>(mut words: W) -> Result<Command<'a>, Complaint>
    requires { W.can_next words }
    ensures { (ws : List (List ℕ)) → Gives W.next_gives words ws → meant result ≡ check_command ws }
{
    let name = words.next().ok_or(Complaint::CheckWords)?;
    if words.next().is_some() {
        return Err(Complaint::CheckWords);
    }
    Ok(Command::File(name, FileQuery::Check))
}

// days FILE FIRST LAST
fn days_command<'a, W: Iterator<Item = &'a [u8]>>(mut words: W) -> Result<Command<'a>, Complaint>
    requires { W.can_next words }
    ensures { (ws : List (List ℕ)) → Gives W.next_gives words ws → meant result ≡ days_command ws }
{
    let name = words.next().ok_or(Complaint::DaysWords)?;
    let first = words.next().ok_or(Complaint::DaysWords)?;
    let last = words.next().ok_or(Complaint::DaysWords)?;
    if words.next().is_some() {
        return Err(Complaint::DaysWords);
    }
    let first = read_date(first)?;
    let last = read_date(last)?;
    Ok(Command::File(name, FileQuery::Days { first, last }))
}

// The two commands about a file, by the first word.
fn file_command<'a, W: Iterator<Item = &'a [u8]>>(
    keyword: &[u8],
    words: W,
) -> Result<Command<'a>, Complaint>
    requires { W.can_next words }
    ensures { (ws : List (List ℕ)) → Gives W.next_gives words ws → meant result ≡ file_command keyword.now ws }
{
    match keyword {
        b"check" => check_command(words),
        b"days" => days_command(words),
        _ => Err(Complaint::Unknown),
    }
}

impl<'a> Command<'a> {
    // The command that words make: the first says which it is, the others are its arguments.
    pub fn from_words<W: Iterator<Item = &'a [u8]>>(
        mut words: W,
        numbers: Numbers,
    ) -> Result<Command<'a>, Complaint>
        requires { W.can_next words }
        ensures { (ws : List (List ℕ)) → Gives W.next_gives words ws → meant result ≡ command_of numbers ws }
    {
        // They take different arguments, so closures in a table would be no plainer than this match.
        match words.next().ok_or(Complaint::Unknown)? {
            b"date" => date_command(words),
            b"day" => day_command(words, numbers),
            b"year" => year_command(words, numbers),
            keyword => file_command(keyword, words),
        }
    }
}

// The command on a line, whose words stand between blanks.
pub fn read_command(line: &[u8]) -> Result<Command<'_>, Complaint>
    ensures { meant result ≡ command_read line.now }
{
    let words = line
        .split(|b| matches!(*b, b' ' | b'\t'))
        .filter(|word| !word.is_empty());
    Command::from_words(words, Numbers::Digits)
}
