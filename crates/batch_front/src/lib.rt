// The words of a batch's stream in front of fold coin 0: the sheet w, the number of tables, the bounds, the tables, and r. Each function is lent exactly the places of
// the words that it writes, so that its promise is one equation. A batch passes refusals 3 and 15, and f has the coefficients of all tables, as many as the bounds say.
#![tactic(auto)]

ghost use Rattle.std.specs.Prelude.{◌≡◌, ◌∷◌, ◌++◌, ◌+◌, ◌*◌, ◌≤◌, length, take};
ghost use Rattle.definition.specs.Field.{elements_in};
ghost use Rattle.definition.specs.Prover.{table_words};
ghost use Rattle.definition.specs.Reading.{sheet_test};
ghost use Rattle.definition.specs.Sheet.{edition1, sheet_of};
ghost use Rattle.definition.specs.Verdict.{accepted};
ghost use Rattle.layouts.specs.Levels.{words_for};
ghost use Rattle.batch_definition.specs.Batch.{batch_test, sum_of};
ghost use Rattle.batch_front.specs.Words.{Ordered, tables_of};

// Places for the words of d0 coefficients.
const COEFFICIENTS: usize = 2048;

// The table of a polynomial with at most d0 coefficients: zeros are put behind them.
fn table(w: &[u32], f: &[u32], out: &mut [u32])
    requires in_bounds { (12 ≤ length w.now) × (sheet_test edition1 w.now ≡ accepted) }
    requires f_len { (length f.now ≡ words_for (sheet_of edition1 w.now) (length (elements_in (sheet_of edition1 w.now).spelling f.now))) × (length (elements_in (sheet_of edition1 w.now).spelling f.now) ≤ (sheet_of edition1 w.now).degree) }
    requires out_len { length out.old ≡ words_for (sheet_of edition1 w.now) (sheet_of edition1 w.now).size }
    ensures { out.new ≡ table_words (sheet_of edition1 w.now) f.now }
{
    let mut padded = [0u32; COEFFICIENTS];
    let count = f.len();
    let degree = widths::words(w[0], w[2] as usize);
    padded[..count].copy_from_slice(f);
    first_table::of_polynomial(w, &padded[..degree], out);
}

// The tables of all polynomials, one after the other.
fn tables(w: &[u32], bounds: &[u32], f: &[u32], out: &mut [u32])
    requires ordered { Ordered w.now bounds.now f.now }
    requires out_len { length out.old ≡ words_for (sheet_of edition1 w.now) (sheet_of edition1 w.now).size * length bounds.now }
    ensures { out.new ≡ tables_of (sheet_of edition1 w.now) bounds.now (elements_in (sheet_of edition1 w.now).spelling f.now) }
{
    let size = widths::words(w[0], w[1] as usize);
    let mut at = 0;
    for (m, bound) in bounds.iter().enumerate() {
        let count = widths::words(w[0], *bound as usize);
        let from = size * m;
        table(w, &f[at..at + count], &mut out[from..from + size]);
        at += count;
    }
}

// The number of tables, and the bounds.
fn numbers(bounds: &[u32], out: &mut [u32])
    requires { (length out.old ≡ length bounds.now + 1) × (length bounds.now ≤ 8) }
    ensures { out.new ≡ length bounds.now ∷ bounds.now }
{
    out[0] = bounds.len() as u32;
    out[1..].copy_from_slice(bounds);
}

// The tables, and the words of r, the first coin.
fn tables_and_coin(w: &[u32], bounds: &[u32], f: &[u32], coins: &[u32], out: &mut [u32])
    requires ordered { (Ordered w.now bounds.now f.now) × (words_for (sheet_of edition1 w.now) 1 ≤ length coins.now) }
    requires out_len { length out.old ≡ words_for (sheet_of edition1 w.now) (sheet_of edition1 w.now).size * length bounds.now + words_for (sheet_of edition1 w.now) 1 }
    ensures { out.new ≡ tables_of (sheet_of edition1 w.now) bounds.now (elements_in (sheet_of edition1 w.now).spelling f.now) ++ take (words_for (sheet_of edition1 w.now) 1) coins.now }
{
    let width = widths::words(w[0], 1);
    let n = widths::words(w[0], w[1] as usize) * bounds.len();
    tables(w, bounds, f, &mut out[..n]);
    out[n..].copy_from_slice(&coins[..width]);
}

// The words after the sheet.
fn after_sheet(w: &[u32], bounds: &[u32], f: &[u32], coins: &[u32], out: &mut [u32])
    requires ordered { (Ordered w.now bounds.now f.now) × (words_for (sheet_of edition1 w.now) 1 ≤ length coins.now) }
    requires out_len { length out.old ≡ length bounds.now + 1 + (words_for (sheet_of edition1 w.now) (sheet_of edition1 w.now).size * length bounds.now + words_for (sheet_of edition1 w.now) 1) }
    ensures { out.new ≡ (length bounds.now ∷ bounds.now) ++ (tables_of (sheet_of edition1 w.now) bounds.now (elements_in (sheet_of edition1 w.now).spelling f.now) ++ take (words_for (sheet_of edition1 w.now) 1) coins.now) }
{
    let n = bounds.len() + 1;
    numbers(bounds, &mut out[..n]);
    tables_and_coin(w, bounds, f, coins, &mut out[n..]);
}

// All words in front of fold coin 0.
pub fn front(w: &[u32], bounds: &[u32], f: &[u32], coins: &[u32], out: &mut [u32])
    requires ordered { (Ordered w.now bounds.now f.now) × (words_for (sheet_of edition1 w.now) 1 ≤ length coins.now) }
    requires out_len { length out.old ≡ length w.now + (length bounds.now + 1 + (words_for (sheet_of edition1 w.now) (sheet_of edition1 w.now).size * length bounds.now + words_for (sheet_of edition1 w.now) 1)) }
    ensures { out.new ≡ w.now ++ ((length bounds.now ∷ bounds.now) ++ (tables_of (sheet_of edition1 w.now) bounds.now (elements_in (sheet_of edition1 w.now).spelling f.now) ++ take (words_for (sheet_of edition1 w.now) 1) coins.now)) }
{
    let n = w.len();
    out[..n].copy_from_slice(w);
    after_sheet(w, bounds, f, coins, &mut out[n..]);
}
