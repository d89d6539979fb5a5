// A rule that is read from its text.
use rule_values::ScaleName;
use rules::Rule;
use sources::Limit;

mod made;
mod questions;
mod read;

pub use read::read_rule;

// What the text of an RRULE says: the rule, where it ends, and the calendar that it names.
#[derive(Clone, Copy)]
pub struct RuleText {
    pub rule: Rule,
    pub limit: Limit,
    pub scale: Option<ScaleName>,
}
