// The parts of a rule, between semicolons: each a name and a value around its first `=`.
ghost use Rattle.std.specs.Prelude.{◌≡◌, true, false, ℕ, List, Some, None, IfOk, IfErr};
ghost use Rattle.rules.specs.Parts.{each_of};
ghost use Rattle.refusals.specs.declared.asked.RuleQuestion.TheVariants.{NamedParts, ValueForms};
ghost use Rattle.rrule.specs.Named.{part_word, parts, name, is_known, well_named, some_named, none_twice, well_parted, value_of, said, in_form};

use crate::part_name::PartName;
use refusals::RuleQuestion;
use rule_values::{Form, Word};
use std::marker::Model;
use text::{Bytes, Pieces, Separator, UpTo, after, reads, same_text};

fn is_known<B: Bytes>(name: B) -> bool
    ensures { result ≡ is_known (B.Bytes.left name) }
{
    PartName::read(name).is_some()
}

// The name of a part.
fn name_of<B: Bytes>(part: B) -> UpTo<B, Separator>
    ensures { ⟦<UpTo<B, Separator> as Bytes>⟧.left result ≡ name (B.Bytes.left part) }
{
    UpTo::new(part, Separator(b'='))
}

// Whether a part is a known name and a value.
fn well_named<B: Bytes>(part: B) -> bool
    ensures { result ≡ well_named (B.Bytes.left part) }
{
    after(part, b'=').is_some() && is_known(name_of(part))
}

// Whether every part is. This and what follows asks `parts` of a text, since there are no RuleParts before the answers.
fn all_well_named<B: Bytes>(rule: B) -> bool
    ensures { result ≡ each_of well_named (parts (B.Bytes.left rule)) }
{
    Pieces::of(rule, b';').all(|part| well_named(part))
}

// Whether one of the parts has this name.
fn some_named<N: Bytes, B: Bytes>(name: N, rule: B) -> bool
    ensures { result ≡ some_named (N.Bytes.left name) (parts (B.Bytes.left rule)) }
{
    Pieces::of(rule, b';').any(|part| same_text(name, name_of(part)))
}

// Whether no name stands twice. By hand: `all` shows a part without those after it.
fn none_twice<B: Bytes>(rule: B) -> bool
    ensures { result ≡ none_twice (parts (B.Bytes.left rule)) }
{
    let mut rest = rule;
    while let Some(others) = after(rest, b';') {
        let name = name_of(UpTo::new(rest, Separator(b';')));
        if some_named(name, others) {
            return false;
        }
        rest = others;
    }
    true
}

// A rule that is parts with known names, none twice. Contracts see the parts.
#[derive(Drop)]
pub struct RuleParts<B: Bytes> {
    rule: B,
}

impl<B: Bytes> Model for RuleParts<B> {
    ghost Value = { List (List ℕ) };

    ghost view = { λ r. parts (B.Bytes.left r.rule) };

    ghost invariant = { λ r. well_parted (parts (B.Bytes.left r.rule)) ≡ true };
}

impl<B: Bytes> RuleParts<B> {
    // The parts of a rule, or the fault that it is none.
    pub fn of(rule: B) -> Result<RuleParts<B>, RuleQuestion>
        ensures ok { IfOk result (λ ps. (well_parted (parts (B.Bytes.left rule)) ≡ true) × (ps ≡ parts (B.Bytes.left rule))) }
        ensures err { IfErr result (λ fault. (well_parted (parts (B.Bytes.left rule)) ≡ false) × (fault ≡ NamedParts)) }
    {
        if !(all_well_named(rule) && none_twice(rule)) {
            return Err(RuleQuestion::NamedParts);
        }
        Ok(RuleParts { rule })
    }

    // The value of the part of this name, if it is there.
    fn value_of(&self, name: PartName) -> Option<UpTo<B, Separator>>
        ensures { elim result [ None ↦ None | Some v ↦ Some (⟦<UpTo<B, Separator> as Bytes>⟧.left v) ] ≡ value_of (part_word name) self.now }
    {
        let word = name.word().as_bytes();
        let part = Pieces::of(self.rule, b';').find(|part| reads(name_of(*part), word))?;
        after(part, b'=')
    }

    // What the part of this name says, if it is there, or the fault that its value has another form.
    pub fn said<T: Form>(&self, name: PartName) -> Result<Option<T>, RuleQuestion>
        ensures ok { IfOk result (λ o. (in_form T.Form.reading (value_of (part_word name) self.now) ≡ true) × (o ≡ said T.Form.reading (value_of (part_word name) self.now))) }
        ensures err { IfErr result (λ fault. (in_form T.Form.reading (value_of (part_word name) self.now) ≡ false) × (fault ≡ ValueForms)) }
    {
        self.value_of(name)
            .map(|value| T::read(value).ok_or(RuleQuestion::ValueForms))
            .transpose()
    }
}
