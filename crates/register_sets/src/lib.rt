// The tables of no-use and of conflict sets: of each variable a set of registers.
#![tactic(auto)]

ghost use Rattle.std.specs.Prelude.{◌≡◌};
ghost use Rattle.register_sets.specs.RegisterSets.{set_at, set_put};

use bit_set::BitSet;
use sizes::VARIABLES;

// A set of registers for each variable.
pub type RegisterSets = [BitSet; VARIABLES];

// The set of a variable. A number of no variable is taken modulo the number of variables.
pub fn load(sets: &RegisterSets, v: u32) -> BitSet
    ensures { result ≡ set_at sets.now v }
{
    sets[(v % VARIABLES as u32) as usize]
}

// Keeps a set as that of a variable.
pub fn store(sets: &mut RegisterSets, v: u32, set: BitSet)
    ensures { sets.new ≡ set_put sets.old v set }
{
    sets[(v % VARIABLES as u32) as usize] = set;
}
