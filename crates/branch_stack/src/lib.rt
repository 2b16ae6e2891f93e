// The stack of open branches: of each its branch, its arms, which arm is current, and which variables it recorded. It is
// kept as two tables of rows, one of numbers and one of sets.
#![tactic(auto)]

ghost use Rattle.std.specs.Prelude.{◌≡◌};
ghost use Rattle.branch_stack.specs.BranchStack.{branch_at, occurrences_at, rows_put, sets_put, current_branch, branch_opened};

use bit_set::BitSet;
use forms::Branch;
use sizes::OPEN_BRANCHES;

pub const NUMBERS_PER_BRANCH: usize = 4;

pub const SETS_PER_BRANCH: usize = 3;

pub type BranchRows = [u32; OPEN_BRANCHES * NUMBERS_PER_BRANCH];

pub type BranchSets = [u64; OPEN_BRANCHES * SETS_PER_BRANCH];

// The two tables: a row of numbers and a row of sets for each branch that can be open. Arrays, whose count is a counter, since a
// C host lends them.
#[repr(C)]
#[derive(Clone, Copy)]
pub struct BranchStack {
    pub rows: BranchRows,
    pub sets: BranchSets,
}

#[derive(Clone, Copy)]
pub struct BranchOccurrences {
    pub current_branch_num: Branch,
    pub num_branches: u32,
    pub current_branch_idx: u32,
    pub shallow_safety: BitSet,
    pub deep_safety: BitSet,
    pub subsumed_hits: BitSet,
}

impl BranchStack {
    // The open branch at a level, the outermost at 0. A level past the table is taken modulo its rows.
    pub fn load(&self, level: u32) -> BranchOccurrences
        ensures { result ≡ occurrences_at self.now.rows self.now.sets level }
    {
        let row = (level % OPEN_BRANCHES as u32) as usize * NUMBERS_PER_BRANCH;
        let set = (level % OPEN_BRANCHES as u32) as usize * SETS_PER_BRANCH;
        BranchOccurrences {
            current_branch_num: self.branch_at(level),
            num_branches: self.rows[row + 2],
            current_branch_idx: self.rows[row + 3],
            shallow_safety: self.sets[set],
            deep_safety: self.sets[set + 1],
            subsumed_hits: self.sets[set + 2],
        }
    }

    // Keeps an open branch at a level.
    pub fn store(&mut self, level: u32, branch: BranchOccurrences)
        ensures rows_after { self.new.rows ≡ rows_put self.old.rows level branch }
        ensures sets_after { self.new.sets ≡ sets_put self.old.sets level branch }
    {
        let row = (level % OPEN_BRANCHES as u32) as usize * NUMBERS_PER_BRANCH;
        let set = (level % OPEN_BRANCHES as u32) as usize * SETS_PER_BRANCH;
        self.rows[row] = branch.current_branch_num.start;
        self.rows[row + 1] = branch.current_branch_num.span;
        self.rows[row + 2] = branch.num_branches;
        self.rows[row + 3] = branch.current_branch_idx;
        self.sets[set] = branch.shallow_safety;
        self.sets[set + 1] = branch.deep_safety;
        self.sets[set + 2] = branch.subsumed_hits;
    }

    // The branch of an open level.
    pub fn branch_at(&self, level: u32) -> Branch
        ensures { result ≡ branch_at self.now.rows level }
    {
        let row = (level % OPEN_BRANCHES as u32) as usize * NUMBERS_PER_BRANCH;
        Branch {
            start: self.rows[row],
            span: self.rows[row + 1],
        }
    }

    // The branch in which the clause now stands: the innermost open one, or the default.
    pub fn current_branch_designator(&self, open_branches: u32) -> Branch
        ensures { result ≡ current_branch self.now.rows open_branches }
    {
        if open_branches == 0 {
            return Branch { start: 0, span: 0 };
        }
        self.branch_at(open_branches - 1)
    }
}

// A branch that is opened: no arm has recorded anything.
pub fn opened(branch: Branch, arms: u32) -> BranchOccurrences
    ensures { result ≡ branch_opened branch arms }
{
    BranchOccurrences {
        current_branch_num: branch,
        num_branches: arms,
        current_branch_idx: 0,
        shallow_safety: bit_set::empty(),
        deep_safety: bit_set::empty(),
        subsumed_hits: bit_set::empty(),
    }
}
