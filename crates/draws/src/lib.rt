// The coefficients and the coins of a run of the load, drawn for its sheet. Each function is lent exactly the places of the words that it draws, so that its
// promise is one equation. pw is the table of the points of domain 0: point j of level i stands at scale·j in it, where scale is 2^i.
#![tactic(auto)]

ghost use Rattle.std.specs.Prelude.{◌≡◌, ◌∷◌, ◌++◌, ℕ, ◌+◌, ◌-◌, ◌/◌, ◌≤◌, ◌<◌, length, get_or, replicate};
ghost use Rattle.std.proofs.Math.Option.{Option, none};
ghost use Rattle.definition.specs.Field.{prime_of};
ghost use Rattle.definition.specs.Layout.{coin, coin_kinds, index, layout, message, out as out_of};
ghost use Rattle.definition.specs.Load.{draw_kinds};
ghost use Rattle.definition.specs.Reading.{sheet_test};
ghost use Rattle.definition.specs.Sheet.{Sheet, edition1, sheet_of};
ghost use Rattle.definition.specs.Verdict.{accepted};
ghost use Rattle.layouts.specs.KindsAfter.{kinds_after, later_kinds, out_kinds};
ghost use Rattle.layouts.specs.Levels.{level_of};
ghost use Rattle.draws.specs.AtLevel.{AtLevel};
ghost use Rattle.draws.specs.OutCoin.{MayBe, OutDrawn};

use generator::{Draw, Generator};

// An element for each coefficient.
pub fn coefficients(field: u32, generator: Generator, out: &mut [u32]) -> Generator
    ensures { (h : Sheet) → h.prime ≡ prime_of field → record { value = out.new; next = result.v } ≡ draw_kinds h none (replicate (length out.old) message) generator.v }
{
    generator.fill(field::modulus(field), out)
}

// May x be drawn as an out coin of the round whose domain has every scale-th point of pw? It lies outside, and is not the word before it.
fn allowed(pw: &[u32], scale: usize, before: u32, x: u32) -> bool
    requires { 0 < scale }
    ensures { MayBe pw.now scale before x result }
{
    if x == before {
        return false;
    }
    !domain::inside(pw, scale, x)
}

// An out coin of that round, drawn again while it is not allowed, at most 64 times. Then it is the smallest element allowed: 1 after 0, else 0. The word before
// it is the out coin before it in its round, or p, which is no element.
fn out_coin(field: u32, pw: &[u32], scale: usize, before: u32, generator: Generator) -> Draw
    requires { 0 < scale }
    ensures { OutDrawn field pw.now scale before generator.v (record { value = result.value; next = result.next.v }) }
{
    let p = field::modulus(field);
    let mut current = generator;
    for _ in 0..64u32 {
        let d = current.below(p);
        if allowed(pw, scale, before, d.value) {
            return d;
        }
        current = d.next;
    }
    let last = current.below(p);
    if allowed(pw, scale, before, last.value) {
        return last;
    }
    let next = last.next;
    let smallest: u32 = if before == 0 { 1 } else { 0 };
    Draw {
        value: smallest,
        next: next,
    }
}

// Out coins of a round, one for each place, each after the one before it.
fn out_coins(
    w: &[u32],
    pw: &[u32],
    level: usize,
    scale: usize,
    generator: Generator,
    out: &mut [u32],
) -> Generator
    requires { (AtLevel w.now pw.now level scale) × (0 < level) }
    ensures { record { value = out.new; next = result.v } ≡ draw_kinds (sheet_of edition1 w.now) none (replicate (length out.old) (out_of (level_of (sheet_of edition1 w.now) level))) generator.v }
{
    let field = w[0];
    let mut before = field::modulus(field);
    let mut current = generator;
    for x in out.iter_mut() {
        let d = out_coin(field, pw, scale, before, current);
        before = d.value;
        *x = before;
        current = d.next;
    }
    current
}

// The other coins of a round: the combination coin and the fold coin, then shift indices below the limit.
fn later_coins(field: u32, limit: u32, generator: Generator, out: &mut [u32]) -> Generator
    requires { (0 < limit) × (2 ≤ length out.old) }
    ensures { (h : Sheet) (before : Option ℕ) → h.prime ≡ prime_of field → record { value = out.new; next = result.v } ≡ draw_kinds h before (coin ∷ coin ∷ replicate (length out.old - 2) (index limit)) generator.v }
{
    let next = generator.fill(field::modulus(field), &mut out[..2]);
    next.fill(limit, &mut out[2..])
}

// The number of shift points of a level, which its indices are below.
fn shift_points(points: usize, scale: usize, k: u32) -> u32
    requires { (points ≤ 4096) × ((0 < scale) × (0 < k)) }
    ensures { result ≡ points / scale / k }
{
    (points / scale) as u32 / k
}

// The coins of the round after a level.
fn round(
    w: &[u32],
    pw: &[u32],
    level: usize,
    scale: usize,
    generator: Generator,
    out: &mut [u32],
) -> Generator
    requires at_level { (AtLevel w.now pw.now level scale) × (level < get_or w.now 4 0) }
    requires out_len { length out.old ≡ get_or w.now 5 0 + 2 + get_or w.now (6 + level) 0 }
    ensures { record { value = out.new; next = result.v } ≡ draw_kinds (sheet_of edition1 w.now) none (out_kinds (sheet_of edition1 w.now) level ++ later_kinds (sheet_of edition1 w.now) level) generator.v }
{
    let field = w[0];
    let s = w[5] as usize;
    let twice = 2 * scale;
    let limit = shift_points(pw.len(), scale, w[3]);
    let next = out_coins(w, pw, level + 1, twice, generator, &mut out[..s]);
    later_coins(field, limit, next, &mut out[s..])
}

// The number of coins of the round after a level.
fn round_coins(w: &[u32], level: usize) -> usize
    requires { (length w.now ≡ 12) × ((level < 6) × ((get_or w.now 5 0 ≤ 2) × (get_or w.now (6 + level) 0 ≤ 48))) }
    ensures { result ≡ get_or w.now 5 0 + 2 + get_or w.now (6 + level) 0 }
{
    w[5] as usize + 2 + w[6 + level] as usize
}

// All coins after the fold coin of a level: those of a round and after it, or the final indices.
fn rest(
    w: &[u32],
    pw: &[u32],
    level: usize,
    scale: usize,
    generator: Generator,
    out: &mut [u32],
) -> Generator
    requires at_level { AtLevel w.now pw.now level scale }
    requires out_len { length out.old ≡ length (kinds_after (sheet_of edition1 w.now) level) }
    ensures { record { value = out.new; next = result.v } ≡ draw_kinds (sheet_of edition1 w.now) none (kinds_after (sheet_of edition1 w.now) level) generator.v }
{
    if level == w[4] as usize {
        return generator.fill(shift_points(pw.len(), scale, w[3]), out);
    }
    let n = round_coins(w, level);
    let next = round(w, pw, level, scale, generator, &mut out[..n]);
    rest(w, pw, level + 1, 2 * scale, next, &mut out[n..])
}

// Fold coin 0, and the coins after it.
fn from_first(w: &[u32], pw: &[u32], generator: Generator, out: &mut [u32]) -> Generator
    requires at_level { AtLevel w.now pw.now 0 1 }
    requires out_len { length out.old ≡ length (coin_kinds (layout (sheet_of edition1 w.now))) }
    ensures { record { value = out.new; next = result.v } ≡ draw_kinds (sheet_of edition1 w.now) none (coin_kinds (layout (sheet_of edition1 w.now))) generator.v }
{
    let next = generator.fill(field::modulus(w[0]), &mut out[..1]);
    rest(w, pw, 0, 1, next, &mut out[1..])
}

// The coins of a run in file order, with the table of points made for them. The sheet is of one of the fields 0 to 2, as the load draws it.
pub fn coins(w: &[u32], generator: Generator, out: &mut [u32]) -> Generator
    requires w_len { (length w.now ≡ 12) × (sheet_test edition1 w.now ≡ accepted) × (get_or w.now 0 0 < 3) }
    requires out_len { length out.old ≡ length (coin_kinds (layout (sheet_of edition1 w.now))) }
    ensures { record { value = out.new; next = result.v } ≡ draw_kinds (sheet_of edition1 w.now) none (coin_kinds (layout (sheet_of edition1 w.now))) generator.v }
{
    let mut pw = [0u32; domain::POINTS];
    let size = domain::of_sheet(w, &mut pw);
    from_first(w, &pw[..size], generator, out)
}
