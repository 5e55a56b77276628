// What a run of the stated load draws: a sheet of edition 1, then its coefficients, then its coins.
#![tactic(auto)]

ghost use Rattle.std.specs.Prelude.{◌≡◌, ℕ, ◌≤◌, ◌<◌, length, get_or, take};
ghost use Rattle.definition.specs.Layout.{coin_kinds, layout};
ghost use Rattle.definition.specs.Load.{draw_input, draw_sheet};
ghost use Rattle.definition.specs.Reading.{sheet_test};
ghost use Rattle.definition.specs.Sheet.{edition1, sheet_of};
ghost use Rattle.definition.specs.Verdict.{accepted};

use edition::Edition;
use generator::Generator;

// The sheet, the coefficients and the coins, these at the front of places for those of any sheet, and how many they are; and the generator as it then is.
#[derive(Clone, Copy)]
pub struct Input {
    pub sheet: [u32; 12],
    pub coefficients: [u32; 2048],
    pub coins: [u32; 318],
    pub degree: usize,
    pub due: usize,
    pub next: Generator,
}

// Places for the coefficients of any sheet.
const COEFFICIENTS: usize = 2048;

// Places for the coins of any sheet.
const COINS: usize = 318;

// The coefficients and the coins after a sheet w of one of the fields 0 to 2: those of the run of every v that draws this sheet.
fn after_sheet(
    w: &[u32],
    generator: Generator,
    coefficients: &mut [u32],
    coins: &mut [u32],
) -> Generator
    requires w_len { (length w.now ≡ 12) × (sheet_test edition1 w.now ≡ accepted) × (get_or w.now 0 0 < 3) }
    requires coefficients_len { (length coefficients.old ≡ (sheet_of edition1 w.now).degree) × (length coins.old ≡ length (coin_kinds (layout (sheet_of edition1 w.now)))) }
    ensures { (v : ℕ) → record { value = w.now; next = generator.v } ≡ draw_sheet v → record { value = record { sheet = w.now; coefficients = coefficients.new; coins = coins.new }; next = result.v } ≡ draw_input v }
{
    let before_coins = draws::coefficients(w[0], generator, coefficients);
    let after_coins = draws::coins(w, before_coins, coins);
    after_coins
}

// Draws a run's sheet, its coefficients and its coins.
pub fn draw(generator: Generator) -> Input
    ensures degree_in_bounds { (result.degree ≤ length result.coefficients) × (result.due ≤ length result.coins) }
    ensures v_value { record { value = record { sheet = result.sheet; coefficients = take result.degree result.coefficients; coins = take result.due result.coins }; next = result.next.v } ≡ draw_input generator.v }
{
    let mut w = [0u32; 12];
    let next = sheets::draw(generator, &mut w);
    let mut coefficients = [0u32; COEFFICIENTS];
    let mut coins = [0u32; COINS];
    let degree = w[2] as usize;
    let due = sizes::coins_due(Edition::One, &w);
    let after = after_sheet(&w, next, &mut coefficients[..degree], &mut coins[..due]);
    Input {
        sheet: w,
        coefficients: coefficients,
        coins: coins,
        degree: degree,
        due: due,
        next: after,
    }
}
