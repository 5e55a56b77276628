// Table 0 of a polynomial, in words.
#![tactic(auto)]

ghost use Rattle.std.specs.Prelude.{◌≡◌, ◌≤◌, length, get_or};
ghost use Rattle.definition.specs.Field.{spelling_of, word_count};
ghost use Rattle.definition.specs.Prover.{table_words};
ghost use Rattle.definition.specs.Reading.{sheet_test};
ghost use Rattle.definition.specs.Sheet.{edition1, sheet_of};
ghost use Rattle.definition.specs.Verdict.{accepted};

// Table 0 of the coefficients f in words, for a sheet w that passes. A small one is spared the clearing of many places.
pub fn of_polynomial(w: &[u32], f: &[u32], out: &mut [u32])
    requires in_bounds { (12 ≤ length w.now) × (sheet_test edition1 w.now ≡ accepted) }
    requires f_len { length f.now ≡ word_count (spelling_of (get_or w.now 0 0)) (get_or w.now 2 0) }
    requires out_len { length out.old ≡ word_count (spelling_of (get_or w.now 0 0)) (get_or w.now 1 0) }
    ensures { out.new ≡ table_words (sheet_of edition1 w.now) f.now }
{
    if w[1] <= 256 {
        let mut few = [0u32; domain::FEW_POINTS];
        let count = domain::of_sheet_within(w, &mut few);
        plane_tables::domain_table(w[0], f, &few[..count], 1, out);
    } else {
        let mut pw = [0u32; domain::POINTS];
        let size = domain::of_sheet(w, &mut pw);
        plane_tables::domain_table(w[0], f, &pw[..size], 1, out);
    }
}
