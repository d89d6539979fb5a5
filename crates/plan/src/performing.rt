// Many calls, made in one go.
ghost use Rattle.std.specs.Prelude.{◌≡◌, ◌≤◌, ℕ, IfOk, IfErr, Some, None, length, drop, min};
ghost use Rattle.runs.specs.Plans.{open_failed};
ghost use Rattle.runs.specs.Runs.{happened, told};
ghost use Rattle.runs.specs.Law.{Law};
ghost use Rattle.plan.specs.Plans.{lent, places, fresh_plan, Stands, LeadsOn, Untouched, call_failed, refusal_in};
ghost use Rattle.runs.specs.declared.calls.Answer.TheVariants.{Refused};
ghost use Rattle.runs.specs.declared.calls.Refusal.{Refusal};

use crate::plans::Plan;
use crate::tables::Tables;
use events::RuleShelf;
use refusals::PlanQuestion;
use runs::{Answer, Call};

impl Plan {
    // Makes a call of any kind.
    pub fn make<S: RuleShelf>(&mut self, shelf: &S, tables: &mut Tables, call: &Call) -> Answer
        ensures asked { refusal_in result ≡ call_failed self.old.standing (places tables.old) call.now }
        ensures refused { (question : Refusal) → result ≡ Refused question → lent self.new tables.new ≡ lent self.old tables.old }
        ensures leads { LeadsOn (S.Shelf.held shelf.now) (happened call.now result) (lent self.old tables.old) (lent self.new tables.new) }
        ensures untouched { Untouched (lent self.old tables.old) (lent self.new tables.new) }
    {
        match *call {
            Call::Load(file) => match self.load(shelf, tables, file) {
                Ok(made) => Answer::Loaded(made),
                Err(refusal) => Answer::Refused(refusal),
            },
            Call::Seek(day) => match self.seek(tables, day) {
                Ok(mark) => Answer::Sought(mark),
                Err(question) => Answer::Refused(question.into()),
            },
            Call::Draw => match self.draw(shelf, tables) {
                Ok(Some(line)) => Answer::Drawn(line),
                Ok(None) => Answer::NoMore,
                Err(question) => Answer::Refused(question.into()),
            },
        }
    }
}

// Opens a plan over a window and makes the calls on it, one after another, as many as there are places for their answers.
pub fn perform<S: RuleShelf>(
    shelf: &S,
    first: u32,
    last: u32,
    tables: &mut Tables,
    calls: &[Call],
    answers: &mut [Answer],
) -> Result<Plan, PlanQuestion>
    ensures passed { IfOk result (λ plan. open_failed first last ≡ None) }
    ensures law { IfOk result (λ plan. (n : ℕ) → n ≤ min (length calls.now) (length answers.old) → Law (S.Shelf.held shelf.now) first last (places tables.old) (told calls.now answers.new n)) }
    ensures stands { IfOk result (λ plan. Stands (S.Shelf.held shelf.now) first last (places tables.old) (told calls.now answers.new (min (length calls.now) (length answers.old))) (lent plan tables.new)) }
    ensures untouched { IfOk result (λ plan. Untouched (lent (fresh_plan first last) tables.old) (lent plan tables.new)) }
    ensures beyond { drop (min (length calls.now) (length answers.old)) answers.new ≡ drop (min (length calls.now) (length answers.old)) answers.old }
    ensures refused { IfErr result (λ question. (open_failed first last ≡ Some question) × (tables.new ≡ tables.old) × (answers.new ≡ answers.old)) }
{
    let mut plan = Plan::open(first, last)?;
    for i in 0..calls.len().min(answers.len()) {
        answers[i] = plan.make(shelf, tables, &calls[i]);
    }
    Ok(plan)
}
