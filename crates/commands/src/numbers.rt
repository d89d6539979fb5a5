// Numbers, as commands write them.
ghost use Rattle.std.specs.Prelude.{◌≡◌, ◌≤◌, IfSome};
ghost use Rattle.commands.specs.Numbers.{longer, number_read, numeral_read};

// How the numbers of a command may be written.
#[derive(Clone, Copy, Debug, PartialEq, Eq)]
pub enum Numbers {
    // by digits alone
    Digits,
    // by digits, which a plus may stand before
    PlusDigits,
}

impl Numbers {
    // The number that a word writes, if it is one and no larger than `most`.
    pub fn read(self, word: &[u8], most: u32) -> Option<u32>
        ensures reads { result ≡ numeral_read self most word.now }
        ensures bound { IfSome result (λ n. n ≤ most) }
    {
        match (self, word) {
            (Numbers::PlusDigits, [b'+', digits @ ..]) => read_number(digits, most),
            _ => read_number(word, most),
        }
    }
}

// The number with a digit more at its end, if it is one and the number stays no larger than `most`.
fn with_digit(number: u32, b: u8, most: u32) -> Option<u32>
    ensures { result ≡ longer most number b }
{
    if !b.is_ascii_digit() {
        return None;
    }
    let longer = 10 * u64::from(number) + u64::from(b - b'0');
    u32::try_from(longer).ok().filter(|n| *n <= most)
}

// The number that digits write, if it is no larger than `most`. Zeros may stand before it, a sign may not.
fn read_number(word: &[u8], most: u32) -> Option<u32>
    ensures reads { result ≡ number_read most word.now }
    ensures bound { IfSome result (λ n. n ≤ most) }
{
    if word.is_empty() {
        return None;
    }
    word.iter()
        .try_fold(0, |number: u32, b| with_digit(number, *b, most))
}
