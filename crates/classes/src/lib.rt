// Which names a list of equalities makes equal: each name is labelled with the least name of its class. The list is one of pairs, or
// a flat one, two numbers a pair, of which a lone last number is left out. A number that is no name is its own label, and a pair
// with one makes nothing equal.
#![tactic(auto)]

ghost use Rattle.std.specs.Prelude.{ℕ, ◌≡◌, ◌<◌, List, replicate};
ghost use Rattle.classes.specs.Classes.{names, pairs_of, label_of, joined, labels_after, own_labels, labelling, all_same};
ghost use Rattle.classes.specs.Parents.{Falling, Found, Became, Flattened};

#[cfg(test)]
mod tests;

use sizes::STEPS;
use std::marker::Model;

// Names that equalities can speak of, numbered from 0: three for each step, and three more.
pub const NAMES: usize = 3 * (STEPS + 1);

// Of each name its label, the least name of its class.
pub type LabelCells = [u32; NAMES];

// Room for labels, one cell each.
pub fn room() -> LabelCells
    ensures { result ≡ replicate names 0 }
{
    [0; NAMES]
}

// Of each name its label; or, while pairs are joined, its parent: a name of its class that is not above it.
#[derive(Clone, Copy)]
pub struct Labels {
    parents: LabelCells,
}

impl Model for Labels {
    ghost Value = { List ℕ };

    ghost view = { λ labels. labels.parents };

    ghost invariant = { λ labels. Falling labels.parents };

    ghost inverse = { λ parents. record { parents = parents } };
}

impl Labels {
    // Room for labels.
    pub fn new() -> Labels
        ensures { result ≡ replicate names 0 }
    {
        Labels {
            parents: [0; NAMES],
        }
    }

    // Puts each name in a class of its own.
    fn fill(&mut self)
        ensures { self.new ≡ own_labels }
    {
        for (name, parent) in self.parents.iter_mut().enumerate() {
            *parent = name as u32;
        }
    }

    // The label of `x`. Each second name on the way gets its parent's parent for a parent, which halves the way for the next walk.
    // A walk that counts nothing.
    fn find(&mut self, x: u32) -> u32
        requires { x < names }
        ensures { Found self.old x self.new result }
    {
        let mut name = x;
        let mut parent = self.parents[name as usize];
        while parent < name {
            let grand = self.parents[parent as usize];
            self.parents[name as usize] = grand;
            name = grand;
            parent = self.parents[name as usize];
        }
        name
    }

    // Makes the classes of `x` and `y` one: the larger label gets the smaller one for a parent.
    fn join(&mut self, x: u32, y: u32)
        ensures { Became (λ labels. joined labels x y) self.old self.new }
    {
        // Looked at for what holds of every table, also where nothing is joined.
        let _ = &self.parents;
        if NAMES as u32 <= x {
            return;
        }
        if NAMES as u32 <= y {
            return;
        }
        let a = self.find(x);
        let b = self.find(y);
        if a < b {
            self.parents[b as usize] = a;
            return;
        }
        self.parents[a as usize] = b;
    }

    // Joins pair after pair.
    fn join_all(&mut self, pairs: &[(u32, u32)])
        ensures { Became (λ labels. labels_after labels pairs.now) self.old self.new }
    {
        // Looked at for what holds of every table, also where nothing is joined.
        let _ = &self.parents;
        for (x, y) in pairs {
            self.join(*x, *y);
        }
    }

    // Joins pair after pair of a flat list, two numbers at a time.
    fn join_flat(&mut self, pairs: &[u32])
        ensures { Became (λ labels. labels_after labels (pairs_of pairs.now)) self.old self.new }
    {
        // Looked at for what holds of every table, also where nothing is joined.
        let _ = &self.parents;
        let mut i = 0;
        while i + 1 < pairs.len() {
            self.join(pairs[i], pairs[i + 1]);
            i += 2;
        }
    }

    // Gives each name its label for a parent. Its parent is not above it, so it has its label by then.
    fn flatten(&mut self)
        ensures { Flattened self.old self.new }
    {
        for x in 0..NAMES {
            let parent = self.parents[x];
            self.parents[x] = self.parents[parent as usize];
        }
    }

    // Labels each name with the least name that the pairs make equal to it.
    pub fn label(&mut self, pairs: &[(u32, u32)])
        ensures { self.new ≡ labelling pairs.now }
    {
        self.fill();
        self.join_all(pairs);
        self.flatten();
    }

    // The label of a name; a number that is no name is its own.
    pub fn label_of(&self, x: u32) -> u32
        ensures { result ≡ label_of self.now x }
    {
        label_of(&self.parents, x)
    }

    // Whether all pairs have one label each.
    #[tactic(auto, unfolding(crate::specs::Classes::all_same))]
    pub fn all_same(&self, pairs: &[(u32, u32)]) -> bool
        ensures { result ≡ all_same self.now pairs.now }
    {
        pairs
            .iter()
            .all(|(x, y)| self.label_of(*x) == self.label_of(*y))
    }
}

// Labels each name with the least name that the pairs of a flat list make equal to it.
pub fn label(labels: &mut LabelCells, pairs: &[u32])
    ensures { labels.new ≡ labelling (pairs_of pairs.now) }
{
    let mut table = Labels::new();
    table.fill();
    table.join_flat(pairs);
    table.flatten();
    *labels = table.parents;
}

// The label of a name; a number that is no name is its own.
#[tactic(auto, unfolding(crate::specs::Classes::label_of))]
pub fn label_of(labels: &LabelCells, x: u32) -> u32
    ensures { result ≡ label_of labels.now x }
{
    labels.get(x as usize).copied().unwrap_or(x)
}

// Whether all pairs of a flat list have one label each.
pub fn all_same(labels: &LabelCells, pairs: &[u32]) -> bool
    ensures { result ≡ all_same labels.now (pairs_of pairs.now) }
{
    let mut i = 0;
    while i + 1 < pairs.len() {
        if label_of(labels, pairs[i]) != label_of(labels, pairs[i + 1]) {
            return false;
        }
        i += 2;
    }
    true
}
