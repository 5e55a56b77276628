// One round of the honest prover: its words, the corrected polynomial of the next level, and that polynomial's fold. pw is the table of the points of domain
// 0: point j of level i stands at scale·j in it, where scale is 2^i.
#![tactic(auto)]

ghost use Rattle.std.specs.Prelude.{◌≡◌, ◌+◌, ◌-◌, ◌*◌, ◌/◌, ◌≤◌, ◌<◌, length, get_or, take};
ghost use Rattle.definition.specs.Field.{elements_in, spelling_of};
ghost use Rattle.definition.specs.Sheet.{sheet_of};
ghost use Rattle.layouts.specs.Levels.{degree_of, element_at, rounds_of};
ghost use Rattle.spelling.specs.ByField.{elements_at, words_at};
ghost use Rattle.elements.specs.Meaning.{value_at};
ghost use Rattle.edition.specs.Meaning.{edition_of};
ghost use Rattle.honest_words.specs.Invariant.{AtLevel, RoundCoinsFit, Invariant, fold_of, round_count, round_from};
ghost use Rattle.honest_round.specs.Rounds.{Points, CorrectedIn, FoldedIn, FoldAfter};

use edition::Edition;
use quartic::Four;

// Places for the points of a round, at most 2 + 48.
const POINTS: usize = 50;

// The same, of four words each.
const FOUR_POINTS: usize = 200;

// The folding number of a level.
fn folding_number(e: Edition, w: &[u32], level: usize) -> usize
    requires { AtLevel (edition_of e) w.now level }
    ensures { result ≡ fold_of (sheet_of (edition_of e) w.now) level }
{
    edition::fold(e, w, level)
}

// Coin number n of the round after its out coins: 0 is the combination coin, 1 the fold coin of the next round.
fn coin(w: &[u32], coins: &[u32], n: usize) -> Four
    requires in_bounds { (12 ≤ length w.now) × ((get_or w.now 5 0 ≤ 2) × (n ≤ 1)) }
    requires w_in_bounds { words_at (get_or w.now 0 0) (get_or w.now 5 0 + n) + words_at (get_or w.now 0 0) 1 ≤ length coins.now }
    ensures { value_at (get_or w.now 0 0) result ≡ element_at (spelling_of (get_or w.now 0 0)) coins.now (words_at (get_or w.now 0 0) (get_or w.now 5 0 + n)) }
{
    let s = w[5] as usize;
    let at = elements::width(w[0]) * (s + n);
    elements::at(w[0], coins, at)
}

// The number of coefficients of the fold of n coefficients at a level.
pub fn fold_length(e: Edition, w: &[u32], level: usize, n: usize) -> usize
    requires { AtLevel (edition_of e) w.now level }
    ensures { result ≡ n / fold_of (sheet_of (edition_of e) w.now) level }
{
    n / folding_number(e, w, level)
}

// The fold of a level's polynomial at its fold coin.
pub fn fold(e: Edition, w: &[u32], level: usize, r: Four, f: &[u32], out: &mut [u32])
    requires { (AtLevel (edition_of e) w.now level) × (length (elements_at (get_or w.now 0 0) f.now) ≡ fold_of (sheet_of (edition_of e) w.now) level * length (elements_at (get_or w.now 0 0) out.old)) }
    ensures { FoldedIn (sheet_of (edition_of e) w.now) level r f.now out.new }
{
    let k = folding_number(e, w, level);
    correction::fold(w[0], k, r, f, out);
}

// A round: the edition, the sheet's words, the table of the points of domain 0, the level before it with its scale, and the coins still to come.
#[derive(Clone, Copy)]
struct Round<'a> {
    e: Edition,
    w: &'a [u32],
    pw: &'a [u32],
    level: usize,
    scale: usize,
    coins: &'a [u32],
}

impl<'a> Round<'a> {
    // The points of the round's samples, without repeats, in the last places of xs. They do not depend on the round's polynomial.
    fn sample_points(&self, xs: &mut [u32]) -> usize
        requires invariant { (Invariant (edition_of self.now.e) self.now.w.now self.now.pw.now self.now.level self.now.scale) × (self.now.level < rounds_of (sheet_of (edition_of self.now.e) self.now.w.now)) }
        requires round_coins_fit { (RoundCoinsFit (sheet_of (edition_of self.now.e) self.now.w.now) self.now.level self.now.coins.now) × (length (elements_at (get_or self.now.w.now 0 0) xs.old) ≡ 50) }
        ensures points { Points (sheet_of (edition_of self.now.e) self.now.w.now) self.now.level self.now.coins.now result xs.new }
        ensures upper_bound { (result ≤ length (elements_at (get_or self.now.w.now 0 0) xs.old)) × (length (elements_at (get_or self.now.w.now 0 0) xs.old) - result < degree_of (sheet_of (edition_of self.now.e) self.now.w.now) (self.now.level + 1)) }
    {
        let s = self.w[5] as usize;
        let t = self.w[6 + self.level] as usize;
        let width = elements::width(self.w[0]);
        let a = width * s;
        let first = width * (s + 2);
        let k = folding_number(self.e, self.w, self.level);
        distinct::points(
            self.w[0],
            self.pw,
            self.scale,
            k,
            &self.coins[..a],
            &self.coins[first..first + t],
            xs,
        )
    }

    // The corrected polynomial of the next level, where g holds the round's polynomial, with places for the points. What g and they hold afterwards is of
    // no use.
    fn correct_within(&self, xs: &mut [u32], g: &mut [u32], next: &mut [u32])
        requires invariant { (Invariant (edition_of self.now.e) self.now.w.now self.now.pw.now self.now.level self.now.scale) × (self.now.level < rounds_of (sheet_of (edition_of self.now.e) self.now.w.now)) }
        requires next_len { length (elements_at (get_or self.now.w.now 0 0) next.old) ≡ degree_of (sheet_of (edition_of self.now.e) self.now.w.now) (self.now.level + 1) }
        requires round_coins_fit { (RoundCoinsFit (sheet_of (edition_of self.now.e) self.now.w.now) self.now.level self.now.coins.now) × (length (elements_at (get_or self.now.w.now 0 0) next.old) ≤ length (elements_at (get_or self.now.w.now 0 0) g.old)) }
        requires xs_len { (length (elements_at (get_or self.now.w.now 0 0) xs.old) ≡ 50) × (length xs.old ≤ 4096) }
        ensures { CorrectedIn (sheet_of (edition_of self.now.e) self.now.w.now) self.now.level self.now.coins.now (length (elements_at (get_or self.now.w.now 0 0) next.old)) g.old next.new }
    {
        let from = self.sample_points(xs);
        let d = elements::count(self.w[0], next);
        let c = coin(self.w, self.coins, 0);
        correction::corrected(self.w[0], xs, from, c, g, d, next);
    }

    // The same with places of its own for the points, N words.
    fn correct_by<const N: usize>(&self, g: &mut [u32], next: &mut [u32])
        requires invariant { (Invariant (edition_of self.now.e) self.now.w.now self.now.pw.now self.now.level self.now.scale) × (self.now.level < rounds_of (sheet_of (edition_of self.now.e) self.now.w.now)) }
        requires next_len { length (elements_at (get_or self.now.w.now 0 0) next.old) ≡ degree_of (sheet_of (edition_of self.now.e) self.now.w.now) (self.now.level + 1) }
        requires round_coins_fit { (RoundCoinsFit (sheet_of (edition_of self.now.e) self.now.w.now) self.now.level self.now.coins.now) × (length (elements_at (get_or self.now.w.now 0 0) next.old) ≤ length (elements_at (get_or self.now.w.now 0 0) g.old)) }
        requires places { N ≡ words_at (get_or self.now.w.now 0 0) 50 }
        ensures { CorrectedIn (sheet_of (edition_of self.now.e) self.now.w.now) self.now.level self.now.coins.now (length (elements_at (get_or self.now.w.now 0 0) next.old)) g.old next.new }
    {
        let mut xs = [0u32; N];
        self.correct_within(&mut xs, g, next);
    }

    // The same, by the field.
    fn correct(&self, g: &mut [u32], next: &mut [u32])
        requires invariant { (Invariant (edition_of self.now.e) self.now.w.now self.now.pw.now self.now.level self.now.scale) × (self.now.level < rounds_of (sheet_of (edition_of self.now.e) self.now.w.now)) }
        requires next_len { length (elements_at (get_or self.now.w.now 0 0) next.old) ≡ degree_of (sheet_of (edition_of self.now.e) self.now.w.now) (self.now.level + 1) }
        requires round_coins_fit { (RoundCoinsFit (sheet_of (edition_of self.now.e) self.now.w.now) self.now.level self.now.coins.now) × (length (elements_at (get_or self.now.w.now 0 0) next.old) ≤ length (elements_at (get_or self.now.w.now 0 0) g.old)) }
        ensures { CorrectedIn (sheet_of (edition_of self.now.e) self.now.w.now) self.now.level self.now.coins.now (length (elements_at (get_or self.now.w.now 0 0) next.old)) g.old next.new }
    {
        if self.w[0] == 3 {
            self.correct_by::<FOUR_POINTS>(g, next);
        } else {
            self.correct_by::<POINTS>(g, next);
        }
    }

    // What a round leaves, after a level whose polynomial's fold, of d coefficients, stands at the front of g: the corrected polynomial of the next level,
    // in the first d places of next; and that polynomial's fold, of `folded` coefficients, at the front of g again.
    fn next_fold(&self, d: usize, folded: usize, g: &mut [u32], next: &mut [u32])
        requires invariant { (Invariant (edition_of self.now.e) self.now.w.now self.now.pw.now self.now.level self.now.scale) × (self.now.level < rounds_of (sheet_of (edition_of self.now.e) self.now.w.now)) }
        requires d_value { (d ≡ degree_of (sheet_of (edition_of self.now.e) self.now.w.now) (self.now.level + 1)) × (folded ≡ degree_of (sheet_of (edition_of self.now.e) self.now.w.now) (self.now.level + 1 + 1)) }
        requires round_coins_fit { (RoundCoinsFit (sheet_of (edition_of self.now.e) self.now.w.now) self.now.level self.now.coins.now) × ((words_at (get_or self.now.w.now 0 0) d ≤ length g.old) × (words_at (get_or self.now.w.now 0 0) d ≤ length next.old)) }
        ensures { FoldAfter (sheet_of (edition_of self.now.e) self.now.w.now) self.now.level self.now.coins.now d folded g.old g.new }
    {
        let width = elements::width(self.w[0]);
        let n = width * d;
        let m = width * folded;
        self.correct(g, &mut next[..n]);
        let r = coin(self.w, self.coins, 1);
        fold(self.e, self.w, self.level + 1, r, &next[..n], &mut g[..m]);
    }
}

// Places for the fold of a polynomial of at most 2,048 words, or for the next polynomial.
pub const FOLD: usize = 1024;

// The same, of at most 128.
pub const FEW_FOLD: usize = 64;

// One round after such a level: its words, and what it leaves, with places of its own for the next polynomial. A small one is spared the clearing of many.
pub fn step(
    e: Edition,
    w: &[u32],
    pw: &[u32],
    level: usize,
    scale: usize,
    d: usize,
    folded: usize,
    coins: &[u32],
    g: &mut [u32],
    out: &mut [u32],
)
    requires invariant { (Invariant (edition_of e) w.now pw.now level scale) × (level < rounds_of (sheet_of (edition_of e) w.now)) }
    requires d_value { (d ≡ degree_of (sheet_of (edition_of e) w.now) (level + 1)) × (folded ≡ degree_of (sheet_of (edition_of e) w.now) (level + 1 + 1)) }
    requires round_coins_fit { (RoundCoinsFit (sheet_of (edition_of e) w.now) level coins.now) × (words_at (get_or w.now 0 0) d ≤ length g.old) }
    requires out_len { length out.old ≡ round_count (sheet_of (edition_of e) w.now) level }
    ensures out_after { out.new ≡ round_from (sheet_of (edition_of e) w.now) level (take d (elements_in (sheet_of (edition_of e) w.now).spelling g.old)) coins.now }
    ensures fold_after { FoldAfter (sheet_of (edition_of e) w.now) level coins.now d folded g.old g.new }
{
    let width = elements::width(w[0]);
    let n = width * d;
    honest_words::round(e, w, pw, level, scale, &g[..n], coins, out);
    let round = Round {
        e: e,
        w: w,
        pw: pw,
        level: level,
        scale: scale,
        coins: coins,
    };
    if n <= FEW_FOLD {
        let mut few = [0u32; FEW_FOLD];
        round.next_fold(d, folded, g, &mut few);
    } else {
        let mut next = [0u32; FOLD];
        round.next_fold(d, folded, g, &mut next);
    }
}
