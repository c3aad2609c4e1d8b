// An input of the calls, once it is checked.
ghost use Rattle.std.specs.Prelude.{◌≡◌, true, Ok, MatchResult};
ghost use Rattle.algebra.specs.Refusals.{need as plan_need, passes};
ghost use Rattle.reading.specs.TableSet.{read_set, tables_of};
ghost use Rattle.reading.specs.Tree.{plan_of};
ghost use Rattle.reading.specs.Check.{input_refusal};
ghost use Rattle.unnesting.specs.Attempts.{TurnsBack};

use reading::input::check_input;
use reading::refusal::Refusal;

// A set and a plan that the refusals 1 to 14 do not turn back, with what their check has told: how many tables the set has, and how many cells
// the plan needs.
#[derive(Clone, Copy)]
pub(crate) struct Input<'a> {
    pub set: &'a [u8],
    pub plan: &'a [u8],
    pub tables: usize,
    pub need: usize,
    ghost accepted: { input_refusal set.now plan.now ≡ 0 },
    ghost passed: { passes (tables_of set.now) (plan_of plan.now) ≡ true },
    ghost known: { read_set set.now ≡ Ok tables },
    ghost needed: { need ≡ plan_need (tables_of set.now) (plan_of plan.now) },
}

impl<'a> Input<'a> {
    // Checks a set and a plan: the input, or the refusal of 1 to 14 that turns it back.
    pub(crate) fn check(set: &'a [u8], plan: &'a [u8]) -> Result<Input<'a>, Refusal>
        ensures { MatchResult result (λ input. (input.set.now ≡ set.now) × (input.plan.now ≡ plan.now)) (TurnsBack set.now plan.now) }
    {
        let known = check_input(set, plan)?;
        Ok(Input {
            set,
            plan,
            tables: known.tables,
            need: known.need,
        })
    }
}
