//! Where the place of a fault leads in the value of the script, as far as it does.
ghost use Rattle.std.specs.Prelude.{◌≡◌, Some, map, option_map};
ghost use Rattle.serde_json.specs.Data.{Data};
ghost use Rattle.serde_json.specs.View.{view};
ghost use Rattle.script_check.specs.Found.{at_place, stepped};
ghost use Rattle.script_check.specs.Views.{step_of};

use script_check::Step;
use serde_json::Value;

/// The value to which steps lead; where one leads nowhere, that before it. The place of each fault leads to a value.
pub(crate) fn value_at<'v>(value: &'v Value, steps: &[Step]) -> &'v Value
    ensures { (d : Data) → at_place (map step_of steps.now) (view value.now) ≡ Some d → view result.now ≡ d }
{
    match steps.split_first() {
        None => value,
        Some((step, rest)) => match next(value, step) {
            None => value,
            Some(inner) => value_at(inner, rest),
        },
    }
}

/// What stands a step further.
fn next<'v>(value: &'v Value, step: &Step) -> Option<&'v Value>
    ensures { option_map (λ inner. view inner.now) result ≡ stepped (step_of step.now) (view value.now) }
{
    match step {
        Step::Key(name) => value.get(name.text()),
        Step::Item(n) => value.get(*n),
    }
}
