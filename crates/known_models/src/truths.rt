ghost use Rattle.std.specs.Prelude.{◌≡◌, ◌<◌, ℕ, All, Contains, length, slice_get};
ghost use Rattle.known_models.specs.Changes.{HasValue, Takes};

use currency_base::Assignment;
use search_trail::Values;

/// Makes the truths of some variables what their values are.
pub(crate) fn put_values(truths: &mut Assignment, vars: &[u32], values: &Values)
    requires within { All (λ var. var < length truths.old) vars.now }
    requires many { length values.now.given ≡ length truths.old }
    requires values { All (HasValue values.now.given) vars.now }
    ensures { Takes vars.now values.now.given truths.old truths.new }
{
    for var in vars {
        let Some(value) = values.value(*var) else {
            unreachable!();
        };
        truths.set(*var, value);
    }
}

/// Makes one assignment the same as another, from which it differs in some variables alone.
pub(crate) fn make_same(truths: &mut Assignment, vars: &[u32], other: &Assignment)
    requires within { All (λ var. var < length truths.old) vars.now }
    requires many { length other.now ≡ length truths.old }
    requires others { (var : ℕ) → (Contains vars.now var → ⊥) → slice_get truths.old var ≡ slice_get other.now var }
    ensures { truths.new ≡ other.now }
{
    for var in vars {
        truths.set(*var, other.value(*var));
    }
}
