// How the values of the parts are read.
ghost use Rattle.std.specs.Prelude.{◌≡◌};
ghost use Rattle.rules.specs.Parts.{each_of};
ghost use Rattle.rule_values.specs.Numbers.{number_to};
ghost use Rattle.rule_values.specs.Values.{until_read, scale_byte, scale_read};

use super::{LastDay, Number, ScaleName};
use crate::form::Form;
use crate::lists::copy_bytes;
use crate::numbers::read_number;
use short_lists::ShortList;
use text::{Bytes, read_day};

impl<const MOST: u16> Form for Number<MOST> {
    ghost reading = { number_to MOST };

    fn read<B: Bytes>(text: B) -> Option<Number<MOST>> {
        let value = read_number(text, MOST)?;
        Some(Number { value })
    }
}

impl Form for LastDay {
    ghost reading = { until_read };

    fn read<B: Bytes>(text: B) -> Option<LastDay> {
        read_day(text).map(|day| LastDay { day })
    }
}

// Whether every byte may stand in the name of a calendar.
// Names of lines and of calendars have the same bytes by chance: each definition says its own.
fn in_scale_names(name: &[u8]) -> bool
    ensures { result ≡ each_of scale_byte name.now }
{
    name.iter().all(|b| b.is_ascii_alphanumeric() || *b == b'-')
}

impl Form for ScaleName {
    ghost reading = { scale_read };

    fn read<B: Bytes>(text: B) -> Option<ScaleName> {
        let name: ShortList<u8, 24> = copy_bytes(text)?;
        if name.is_empty() || !in_scale_names(name.items()) {
            return None;
        }
        Some(ScaleName { name })
    }
}
