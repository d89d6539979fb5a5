// Values that are one of a few words.
ghost use Rattle.std.specs.Prelude.{◌≡◌, ℕ, List};
ghost use Rattle.days.specs.Numbers.{letters};
ghost use Rattle.rule_values.specs.Words.{word_read, frequency_word, skip_word, frequencies, skips, weekdays};

use crate::form::Form;
use days::weekday::Weekday;
use rules::{Frequency, Skip};
use text::{Bytes, reads};

// A value that a rule writes as one word.
pub trait Word: Copy + 'static {
    ghost spelling: { Self → List ℕ };

    ghost values: { List Self };

    fn word(self) -> &'static str
        ensures { result.now ≡ spelling self };

    // The values that are looked for.
    fn all() -> &'static [Self]
        ensures { result.now ≡ values };
}

// The first of the values whose word the text is.
impl<T: Word> Form for T {
    ghost reading = { word_read T.Word.spelling T.Word.values };

    fn read<B: Bytes>(text: B) -> Option<T> {
        T::all()
            .iter()
            .copied()
            .find(|value| reads(text, value.word().as_bytes()))
    }
}

impl Word for Frequency {
    ghost spelling = { frequency_word };

    ghost values = { frequencies };

    fn word(self) -> &'static str {
        match self {
            Frequency::Yearly => "YEARLY",
            Frequency::Monthly => "MONTHLY",
            Frequency::Weekly => "WEEKLY",
            Frequency::Daily => "DAILY",
        }
    }

    fn all() -> &'static [Frequency] {
        &[
            Frequency::Yearly,
            Frequency::Monthly,
            Frequency::Weekly,
            Frequency::Daily,
        ]
    }
}

impl Word for Skip {
    ghost spelling = { skip_word };

    ghost values = { skips };

    fn word(self) -> &'static str {
        match self {
            Skip::Omit => "OMIT",
            Skip::Backward => "BACKWARD",
            Skip::Forward => "FORWARD",
        }
    }

    fn all() -> &'static [Skip] {
        &[Skip::Omit, Skip::Backward, Skip::Forward]
    }
}

impl Word for Weekday {
    ghost spelling = { letters };

    ghost values = { weekdays };

    fn word(self) -> &'static str {
        self.letters()
    }

    fn all() -> &'static [Weekday] {
        &[
            Weekday::Monday,
            Weekday::Tuesday,
            Weekday::Wednesday,
            Weekday::Thursday,
            Weekday::Friday,
            Weekday::Saturday,
            Weekday::Sunday,
        ]
    }
}
