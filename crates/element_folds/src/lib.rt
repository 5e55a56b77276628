// The fold of the k values at the roots of a shift point, by halving, of elements of either spelling. The points are words of the prime field in both.
#![tactic(auto)]

ghost use Rattle.std.specs.Prelude.{◌≡◌, ◌^◌, ◌≤◌, ◌<◌, length, get_or};
ghost use Rattle.definition.specs.Field.{Field};
ghost use Rattle.folds.specs.Halving.{halving, exponent_of};
ghost use Rattle.folds.specs.OneHalf.{half_of};
ghost use Rattle.spelling.specs.ByField.{field_at, elements_at};
ghost use Rattle.elements.specs.Meaning.{value_at};
ghost use Rattle.element_folds.specs.Points.{inverse_at};

use quartic::{Four, FourWords};

// The values at the powers e, e + d, .. of ω, folded with r.
pub fn fold_values(field: u32, pw: &[u32], e: usize, d: usize, r: Four, values: &mut [u32]) -> Four
    requires pw_nonzero { (0 < length pw.now) × ((e ≤ 4096) × (d ≤ 4096)) }
    requires values_len { (length (elements_at field values.old) ≡ 2 ^ exponent_of (length (elements_at field values.old))) × (length (elements_at field values.old) ≤ 16) }
    ensures { value_at field result ≡ halving (field_at field) (half_of (field_at field)) (inverse_at field pw.now) (exponent_of (length (elements_at field values.old))) e d (value_at field r) (λ m. get_or (elements_at field values.old) m (field_at field).𝟘) }
{
    if field == 3 {
        let Some(half) = folds::invert_two(field) else {
            // never: 2 differs from 0 in each field
            return r;
        };
        return folds::fold_by_half(FourWords, half, pw, e, d, r, values);
    }
    elements::number(folds::fold_values(field, pw, e, d, r.a, values))
}
