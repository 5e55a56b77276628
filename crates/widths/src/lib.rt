// How many words elements take: four each in field 3, one in every other field.
#![tactic(auto)]

ghost use Rattle.std.specs.Prelude.{◌≡◌, ◌*◌, ◌≤◌};
ghost use Rattle.definition.specs.Field.{spelling_of, word_count};

// The number of words of n elements.
pub fn words(field: u32, n: usize) -> usize
    requires { n ≤ 4611686018427387903 }
    ensures { (result ≡ word_count (spelling_of field) n) × (result ≤ 4 * n) }
{
    if field == 3 {
        return 4 * n;
    }
    n
}
