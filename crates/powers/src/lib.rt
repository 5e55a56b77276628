// The stored table of the powers of ω in field 2. The crate holds nothing else, since it is slow to check.
#![tactic(auto)]

ghost use Rattle.std.specs.Prelude.{◌≡◌};
ghost use Rattle.powers.specs.Table.{stored_powers, every_nth};

mod few;
mod table;

// The table. The caller keeps it in a local and lends it as a slice.
pub fn stored() -> [u32; 4096]
    ensures { result ≡ stored_powers }
{
    table::POWERS
}

// Every 16th of the table, for domains of at most 256 points: a call copies what it returns whole, and these need not wait for 4,096 numbers.
pub fn stored_few() -> [u32; 256]
    ensures { result ≡ every_nth 16 256 stored_powers }
{
    few::POWERS
}
