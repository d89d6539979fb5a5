// What is proved of rules and of parts alone.
ghost use Rattle.rules.specs.Meaning.{RulesSay};
ghost use Rattle.rules.specs.Making.{PartsSay};

// The test of a day says what the words say, over every lawful calendar and from every day of the range.
pub fn rules_say()
    ensures { RulesSay }
{}

// The parts of a checked rule give what the rule gives, and parts that do not fit together give no day.
pub fn parts_say()
    ensures { PartsSay }
{}
