// The run of a check sheet on names: both sides of the sheet, line by line.
#![tactic(auto)]

ghost use Rattle.std.specs.Prelude.{◌≤◌, ◌≡◌, true, length, get_or, set, take, Some, None};
ghost use Rattle.notation.specs.Lists.{numbers_from};
ghost use Rattle.sizes.specs.Sizes.{registers, steps as step_lines};
ghost use Rattle.registers.specs.declared.RegType.TheVariants.{Temp};
ghost use Rattle.steps.specs.Steps.{step_fits, fits};
ghost use Rattle.classes.specs.Classes.{pairs_of};
ghost use Rattle.symbolic.specs.Names.{place_name, step_name, place_cells, call_name};
ghost use Rattle.symbolic.specs.Symbolic.{
  pushed,
  listed,
  held,
  put,
  did,
  spoilt_up_to,
  spoilt_at,
  value_of,
  again,
  wanted,
  claimed,
  claimed_at,
  carried,
  nothing,
  taking_of,
  taken,
};

use instructions::Instruction;
use refusals::Refusal;
use registers::RegType;
use sizes::{INSTRUCTIONS, LAST_REGISTER, STEPS, VARIABLES};
use steps::{CheckLine, Judged, Order, Step};

// Cells for the contents of the places, each at its name.
pub const PLACE_CELLS: usize = 3 * (LAST_REGISTER as usize + 1);
// Cells for pairs: two for each line of a sheet.
pub const PAIR_CELLS: usize = 2 * (STEPS * (INSTRUCTIONS + 1));

// The name that each place holds.
pub type Places = [u32; PLACE_CELLS];
// The name that is each variable's value, where a step has fixed one.
pub type Values = [Option<u32>; VARIABLES];

// Pairs of numbers, two cells each.
pub type PairCells = [u32; PAIR_CELLS];

// Pairs of numbers in a table, and how many of its cells count: there is no heap, so the room is there from the start.
#[derive(Clone, Copy)]
pub struct Pairs {
    pub cells: PairCells,
    pub count: usize,
}

// What the instructions do: the name that each place holds, the equalities demanded, and the subterm list, a step and a name.
#[derive(Clone, Copy)]
pub struct Doing {
    pub places: Places,
    pub demands: Pairs,
    pub made: Pairs,
}

// What the steps want: the name that is each variable's value, the equalities wanted, the subterm list wanted, a step and a
// name, and the arguments of this goal, a register's number and the name that it has to hold.
#[derive(Clone, Copy)]
pub struct Wanting {
    pub values: Values,
    pub wants: Pairs,
    pub due: Pairs,
    pub goal: Pairs,
}

// Both sides, and what the calls read: the name that an argument holds and the one that it has to hold.
#[derive(Clone, Copy)]
pub struct Symbols {
    pub doing: Doing,
    pub wanting: Wanting,
    pub claims: Pairs,
}

impl Pairs {
    // One pair more; a table that is full stays as it is.
    fn push(&mut self, a: u32, b: u32)
        ensures { self.new ≡ pushed self.old a b }
    {
        if self.count < PAIR_CELLS - 1 {
            self.cells[self.count] = a;
            self.cells[self.count + 1] = b;
            self.count += 2;
        }
    }

    // No pair counts any more.
    fn clear(&mut self)
        ensures { self.new ≡ record self.old { count = 0 } }
    {
        self.count = 0;
    }

    // The cells that count, two a pair, in order.
    #[tactic(auto, using(std::proofs::Common::take_all))]
    pub fn listed(&self) -> &[u32]
        ensures { result.now ≡ take self.now.count self.now.cells }
    {
        if self.count < PAIR_CELLS {
            return &self.cells[..self.count];
        }
        &self.cells
    }
}

// ---- Names and cells

// The cell of a place, which is its name.
fn place_cell(place: RegType) -> usize
    ensures { result ≡ place_name place }
{
    match place {
        RegType::Temp(r) => 3 * (r as usize),
        RegType::Perm(r) => 3 * (r as usize) + 1,
    }
}

// The name of a register.
fn register_name(k: u32) -> u32
    requires { k ≤ registers }
    ensures { result ≡ place_name (Temp k) }
{
    3 * k
}

// The name of a step.
fn step_name(step: u32) -> u32
    requires { step ≤ step_lines }
    ensures { result ≡ step_name step }
{
    3 * step + 2
}

// The name of what a call leaves in a register.
fn call_name(call: u32, r: u32) -> u32
    requires { (call ≤ step_lines) × (r ≤ registers) }
    ensures { result ≡ call_name call r }
{
    PLACE_CELLS as u32 * call + 3 * r
}

// The name that a place holds.
fn held(places: &Places, place: RegType) -> u32
    ensures { result ≡ held places.now place }
{
    places.get(place_cell(place)).copied().unwrap_or(0)
}

// Puts a name into a place.
fn put(places: &mut Places, place: RegType, name: u32)
    ensures { places.new ≡ put places.old place name }
{
    let cell = place_cell(place);
    if cell < places.len() {
        places[cell] = name;
    }
}

// The name that is a variable's value, where a step has fixed one.
fn value_at(values: &Values, v: u32) -> Option<u32>
    ensures { result ≡ get_or values.now v None }
{
    values.get(v as usize).copied().unwrap_or(None)
}

// Makes a name a variable's value.
fn write_value(values: &mut Values, v: u32, name: u32)
    ensures { values.new ≡ set values.old v (Some name) }
{
    let cell = v as usize;
    if cell < values.len() {
        values[cell] = Some(name);
    }
}

// ---- What the instructions do

// Copies what a place holds to another one.
fn copy(places: &mut Places, from: RegType, to: RegType)
    ensures { places.new ≡ put places.old to (held places.old from) }
{
    let name = held(places, from);
    put(places, to, name);
}

// `put_variable`: writes the step's number to a place and to register k.
fn put_variable(places: &mut Places, step: u32, place: RegType, k: u32)
    requires { step ≤ step_lines }
    ensures { places.new ≡ put (put places.old place (step_name step)) (Temp k) (step_name step) }
{
    let name = step_name(step);
    put(places, place, name);
    put(places, RegType::Temp(k), name);
}

// `get_value`: demands that a place holds what register k holds.
fn get_value(doing: &mut Doing, place: RegType, k: u32)
    ensures { doing.new ≡ record doing.old { demands = pushed doing.old.demands (held doing.old.places place) (held doing.old.places (Temp k)) } }
{
    let content = held(&doing.places, place);
    let argument = held(&doing.places, RegType::Temp(k));
    doing.demands.push(content, argument);
}

// `set_variable` and `unify_variable`: writes the step's number to a place, and adds it to the subterm list.
fn add_variable(doing: &mut Doing, step: u32, place: RegType)
    requires { step ≤ step_lines }
    ensures { doing.new ≡ record doing.old { places = put doing.old.places place (step_name step); made = pushed doing.old.made step (step_name step) } }
{
    let name = step_name(step);
    put(&mut doing.places, place, name);
    doing.made.push(step, name);
}

// Set of a value: adds what a place holds to the subterm list.
fn set_value(doing: &mut Doing, step: u32, place: RegType)
    ensures { doing.new ≡ record doing.old { made = pushed doing.old.made step (held doing.old.places place) } }
{
    let content = held(&doing.places, place);
    doing.made.push(step, content);
}

// Unify of a value: demands that a place holds the step's number, and adds that to the subterm list.
fn unify_value(doing: &mut Doing, step: u32, place: RegType)
    requires { step ≤ step_lines }
    ensures { doing.new ≡ record doing.old { demands = pushed doing.old.demands (held doing.old.places place) (step_name step); made = pushed doing.old.made step (step_name step) } }
{
    let name = step_name(step);
    let content = held(&doing.places, place);
    doing.demands.push(content, name);
    doing.made.push(step, name);
}

// Carries out an instruction under a step.
fn does(doing: &mut Doing, step: u32, instruction: Instruction)
    requires { step ≤ step_lines }
    ensures { doing.new ≡ did step doing.old instruction }
{
    match instruction {
        Instruction::GetVariable(place, k) => copy(&mut doing.places, RegType::Temp(k), place),
        Instruction::GetValue(place, k) => get_value(doing, place, k),
        Instruction::PutVariable(place, k) => put_variable(&mut doing.places, step, place, k),
        Instruction::PutValue(place, k) => copy(&mut doing.places, place, RegType::Temp(k)),
        Instruction::PutUnsafeValue(slot, k) => copy(
            &mut doing.places,
            RegType::Perm(slot),
            RegType::Temp(k),
        ),
        Instruction::SetVariable(place) | Instruction::UnifyVariable(place) => add_variable(
            doing, step, place,
        ),
        Instruction::SetValue(place) | Instruction::SetLocalValue(place) => set_value(
            doing, step, place,
        ),
        Instruction::UnifyValue(place) | Instruction::UnifyLocalValue(place) => unify_value(
            doing, step, place,
        ),
    }
}

// Puts into each register the name of what a call leaves there.
fn spoil(places: &mut Places, call: u32)
    requires { call ≤ step_lines }
    ensures { places.new ≡ spoilt_up_to call registers places.old }
{
    for r in 1..LAST_REGISTER + 1 {
        put(places, RegType::Temp(r), call_name(call, r));
    }
}

// ---- What the steps want

// Where a step is not its variable's first, demands that the variable's value is what the step offers.
#[tactic(auto, unfolding(crate::specs::Symbolic::again))]
fn demand_again(wanting: &mut Wanting, v: u32, offered: u32)
    ensures { wanting.new ≡ record wanting.old { wants = again wanting.old.wants (get_or wanting.old.values v None) offered } }
{
    if let Some(value) = value_at(&wanting.values, v) {
        wanting.wants.push(value, offered);
    }
}

// A variable's value, which is what its step offers where that is its first.
#[tactic(auto, unfolding(crate::specs::Symbolic::value_of))]
fn fix(values: &mut Values, v: u32, offered: u32) -> u32
    ensures value { result ≡ value_of (get_or values.old v None) offered }
    ensures values_after { values.new ≡ set values.old v (Some (value_of (get_or values.old v None) offered)) }
{
    let value = value_at(values, v).unwrap_or(offered);
    write_value(values, v, value);
    value
}

// Carries out a step line on the side of what is wanted.
fn want(wanting: &mut Wanting, step: u32, begins: Step)
    requires { (step ≤ step_lines) × (step_fits begins ≡ true) }
    ensures { wanting.new ≡ wanted step wanting.old begins }
{
    match begins {
        Step::Head(k, v) => {
            let name = register_name(k);
            demand_again(wanting, v, name);
            fix(&mut wanting.values, v, name);
        }
        Step::HeadDeep(v) => {
            let name = step_name(step);
            demand_again(wanting, v, name);
            let value = fix(&mut wanting.values, v, name);
            wanting.due.push(step, value);
        }
        Step::Goal(k, v) => {
            let value = fix(&mut wanting.values, v, step_name(step));
            wanting.goal.push(k, value);
        }
        Step::GoalDeep(v) => {
            let value = fix(&mut wanting.values, v, step_name(step));
            wanting.due.push(step, value);
        }
        Step::Call => wanting.goal.clear(),
    }
}

// Of each argument, a register's number and the name that it has to hold, pushes what it holds and that name.
fn claim(places: &Places, arguments: &[u32], claims: &mut Pairs)
    ensures { claims.new ≡ claimed places.now claims.old (pairs_of arguments.now) }
{
    let mut i = 0;
    while i + 1 < arguments.len() {
        claims.push(held(places, RegType::Temp(arguments[i])), arguments[i + 1]);
        i += 2;
    }
}

// At `call`, claims the arguments of this goal and then spoils the registers; at another step nothing.
#[tactic(auto, unfolding(crate::specs::Symbolic::listed))]
fn call_at(places: &mut Places, goal: &Pairs, claims: &mut Pairs, step: u32, begins: Step)
    requires { step ≤ step_lines }
    ensures claims_after { claims.new ≡ claimed_at places.old claims.old goal.now begins }
    ensures places_after { places.new ≡ spoilt_at step places.old begins }
{
    match begins {
        Step::Head(_, _) | Step::HeadDeep(_) | Step::Goal(_, _) | Step::GoalDeep(_) => {}
        Step::Call => {
            claim(places, goal.listed(), claims);
            spoil(places, step);
        }
    }
}

// ---- Both, line by line

// Carries out a line that is accepted; the step is the one that begins, or that the instruction stands under.
fn carry(step: u32, symbols: &mut Symbols, line: CheckLine)
    requires { (step ≤ step_lines) × (fits line ≡ true) }
    ensures { symbols.new ≡ carried step symbols.old line }
{
    match line {
        CheckLine::Begins(begins) => {
            call_at(
                &mut symbols.doing.places,
                &symbols.wanting.goal,
                &mut symbols.claims,
                step,
                begins,
            );
            want(&mut symbols.wanting, step, begins);
        }
        CheckLine::Does(instruction) => does(&mut symbols.doing, step, instruction),
    }
}

// A line judged, and carried out where it is accepted; a line that is refused leaves everything as it is.
pub fn take_line(order: Order, symbols: &mut Symbols, line: CheckLine) -> Judged
    ensures { taking_of symbols.new result ≡ taken order symbols.old line }
{
    if (STEPS as u32) < order.steps {
        return Judged {
            order,
            refusal: Some(Refusal::Full),
        };
    }
    let judged = steps::judge(order, line);
    match judged.refusal {
        Some(_) => judged,
        None => {
            carry(judged.order.steps, symbols, line);
            judged
        }
    }
}

// ---- At the start

// Every place holds its own name.
pub fn fresh_places() -> Places
    ensures { result ≡ numbers_from 0 place_cells }
{
    let mut places = [0; PLACE_CELLS];
    for (name, place) in places.iter_mut().enumerate() {
        *place = name as u32;
    }
    places
}

// Every place holds the name 0, and nothing is demanded or wanted. Inlined, so that the value is made where it is wanted: one that
// is handed back takes its room twice.
#[inline(always)]
pub fn nothing() -> Symbols
    ensures { result ≡ nothing }
{
    let none = Pairs {
        cells: [0; PAIR_CELLS],
        count: 0,
    };
    Symbols {
        doing: Doing {
            places: [0; PLACE_CELLS],
            demands: none,
            made: none,
        },
        wanting: Wanting {
            values: [None; VARIABLES],
            wants: none,
            due: none,
            goal: none,
        },
        claims: none,
    }
}
