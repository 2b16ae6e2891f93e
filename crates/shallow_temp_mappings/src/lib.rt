// Which temporary's value stands in which register.
#![tactic(auto)]

ghost use Rattle.std.specs.Prelude.{◌≡◌};
ghost use Rattle.shallow_temp_mappings.specs.Mappings.{unmapped, mapped_at, variable_at, mapped_with};

use sizes::{LAST_REGISTER, VARIABLES};

// A variable for each register from 0 on, or the number past the last variable where none is mapped: a C host lends them.
pub type Mappings = [u32; LAST_REGISTER as usize + 1];

// The number that stands for a register: of the variable that is mapped to it, and past the last variable where there is none.
#[tactic(auto, unfolding(crate::specs::Mappings::mapped_at))]
pub fn get(mappings: &Mappings, r: u32) -> u32
    ensures { result ≡ mapped_at mappings.now r }
{
    if r <= LAST_REGISTER {
        return mappings[r as usize];
    }
    VARIABLES as u32
}

// The variable that is mapped to a register, where one is.
#[tactic(auto, unfolding(crate::specs::Mappings::variable_at))]
pub fn variable_at(mappings: &Mappings, r: u32) -> Option<u32>
    ensures { result ≡ variable_at mappings.now r }
{
    let v = get(mappings, r);
    (v < VARIABLES as u32).then_some(v)
}

// Maps a register to a variable.
pub fn insert(mappings: &mut Mappings, r: u32, v: u32)
    ensures { mappings.new ≡ mapped_with mappings.old r v }
{
    if r <= LAST_REGISTER {
        mappings[r as usize] = v;
    }
}

// Maps a register to no variable.
pub fn remove(mappings: &mut Mappings, r: u32)
    ensures { mappings.new ≡ mapped_with mappings.old r unmapped }
{
    insert(mappings, r, VARIABLES as u32);
}
