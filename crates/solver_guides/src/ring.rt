ghost use Rattle.std.specs.Prelude.{◌≡◌, ◌<◌, ◌≤◌, ℕ, Some, [], true, length, vec_len};
ghost use Rattle.currency_base.specs.Literals.{var_of};
ghost use Rattle.search_trail.specs.Trails.{IsFreeInScope, ScopedValues};
ghost use Rattle.solver_guides.specs.Choices.{first_free_as, free_choice};
ghost use Rattle.solver_guides.specs.Rings.{AreLeft, HaveRoom, IsAsked, choice_at, count_of, current_choice, guides_of, next_place, place_of};

use crate::Guide;
use crate::choices::{first_free_as, is_pick};
use currency_base::{Assignment, Lit};
use search_trail::Values;
use std::alloc::Global;

/// Guides that take turns. The one whose turn it is picks, until the search begins again. No call but `fit_all` takes
/// memory.
#[derive(Drop)]
pub struct Guides {
    guides: Vec<Box<dyn Guide>>,
    // whose turn it is
    at: usize,
    // how often a literal was picked
    asked: u64,
}

impl Guides {
    /// It is the first one's turn.
    pub fn new(guides: Vec<Box<dyn Guide>>) -> Guides
        ensures count { count_of result ≡ vec_len guides }
        ensures place { place_of result ≡ 0 }
        ensures guides { guides_of result ≡ guides.items }
    {
        Guides {
            guides,
            at: 0,
            asked: 0,
        }
    }

    /// How many guides there are.
    pub fn len(&self) -> usize
        ensures { result ≡ count_of self.now }
    {
        self.guides.len()
    }

    /// Whose turn it is.
    pub fn place(&self) -> usize
        ensures { result ≡ place_of self.now }
    {
        self.at
    }

    /// How often a literal was picked, for those who watch the search.
    pub fn asked(&self) -> u64 {
        self.asked
    }

    /// Leaves the guide at a place, whose turn it is from then on. The others are dropped.
    pub fn keep(&mut self, place: usize)
        requires { place < count_of self.old }
        ensures count { count_of self.new ≡ 1 }
        ensures place { place_of self.new ≡ 0 }
        ensures kept { (values : ScopedValues) → current_choice (λ guide. choice guide) self.new values ≡
            choice_at (λ guide. choice guide) (guides_of self.old) place values }
    {
        self.guides.swap(0, place);
        self.guides.truncate(1);
        self.at = 0;
    }

    /// Each guide makes room for the variables of a first guess at a model. One that is refused memory is dropped, and no
    /// other one is; those that are left keep their order. It is the first one's turn.
    pub fn fit_all(&mut self, alloc: Global, start: &Assignment)
        ensures fewer { count_of self.new ≤ count_of self.old }
        ensures place { place_of self.new ≡ 0 }
        ensures room { HaveRoom (λ guide. has_room guide) (length start.now) (guides_of self.new) (count_of self.new) }
        ensures left { AreLeft (λ guide. may_fit guide) (length start.now) (guides_of self.old) (guides_of self.new) }
    {
        let mut place = 0;
        while place < self.guides.len() {
            if is_fitted(&mut self.guides[place], alloc, start) {
                place += 1;
            } else {
                let _ = self.guides.remove(place);
            }
        }
        self.at = 0;
    }

    /// A literal of a free variable of the scope: what the guide picks whose turn it is, where that is one, else the
    /// negation of the first such variable.
    pub fn pick(&mut self, values: &Values) -> Lit
        requires { (var : ℕ) × IsFreeInScope values.now var }
        ensures free { IsFreeInScope values.now (var_of result) }
        ensures whose { Some result ≡ free_choice values.now (current_choice (λ guide. choice guide) self.old values.now) }
        ensures count { count_of self.new ≡ count_of self.old }
        ensures place { place_of self.new ≡ place_of self.old }
    {
        self.asked = self.asked.saturating_add(1);
        let choice = ask_at(&mut self.guides, self.at, values);
        free_choice(values, choice)
    }

    /// A variable of a conflict: the guide is told whose turn it is.
    pub fn saw(&mut self, var: u32)
        ensures count { count_of self.new ≡ count_of self.old }
        ensures place { place_of self.new ≡ place_of self.old }
    {
        if self.at < self.guides.len() {
            self.guides[self.at].saw(var);
        }
    }

    /// A literal that is true in these values is free from now on: each guide is told, so that what it knows of free
    /// variables stays whole while another one has its turn.
    pub fn freed(&mut self, lit: Lit, values: &Values)
        ensures count { count_of self.new ≡ count_of self.old }
        ensures place { place_of self.new ≡ place_of self.old }
    {
        for place in 0..self.guides.len() {
            self.guides[place].freed(lit, values);
        }
    }

    /// The search leaves a scope: each guide is told.
    pub fn leave(&mut self, scope: &[u32])
        ensures count { count_of self.new ≡ count_of self.old }
        ensures place { place_of self.new ≡ place_of self.old }
    {
        for place in 0..self.guides.len() {
            self.guides[place].leave(scope);
        }
    }

    /// The search enters a scope: each guide is told.
    pub fn enter(&mut self, scope: &[u32])
        ensures count { count_of self.new ≡ count_of self.old }
        ensures place { place_of self.new ≡ place_of self.old }
    {
        for place in 0..self.guides.len() {
            self.guides[place].enter(scope);
        }
    }

    /// The search begins again, and it is the next guide's turn where that is said; else the guide keeps its turn.
    pub fn begin_again(&mut self, moves: bool)
        ensures { count_of self.new ≡ count_of self.old }
    {
        if moves {
            self.restart();
        } else {
            self.stay();
        }
    }

    /// The search begins again, and the guide keeps its turn.
    pub fn stay(&mut self)
        ensures count { count_of self.new ≡ count_of self.old }
        ensures place { place_of self.new ≡ place_of self.old }
    {
        restarted_at(&mut self.guides, self.at);
    }

    /// The search begins again, and it is the next guide's turn.
    pub fn restart(&mut self)
        ensures count { count_of self.new ≡ count_of self.old }
        ensures place { place_of self.new ≡ next_place (count_of self.old) (place_of self.old) }
    {
        restarted_at(&mut self.guides, self.at);
        self.at = next_place(self.guides.len(), self.at);
    }
}

// Makes room in a guide; tells whether there was memory.
fn is_fitted(guide: &mut Box<dyn Guide>, alloc: Global, start: &Assignment) -> bool
    ensures room { result ≡ true → has_room guide.new (length start.now) ≡ true }
    ensures told { IsAsked (λ guide. may_fit guide) (length start.now) guide.old result guide.new }
{
    guide.fit(alloc, start).is_ok()
}

// What a guide picks.
fn ask(guide: &mut Box<dyn Guide>, values: &Values) -> Option<Lit>
    ensures { result ≡ choice guide.old values.now }
{
    guide.pick(values)
}

// What the guide at a place picks, where there is one.
fn ask_at(guides: &mut Vec<Box<dyn Guide>>, at: usize, values: &Values) -> Option<Lit>
    ensures choice { result ≡ choice_at (λ guide. choice guide) guides.old.items at values.now }
    ensures count { vec_len guides.new ≡ vec_len guides.old }
{
    if at < guides.len() {
        ask(&mut guides[at], values)
    } else {
        None
    }
}

// Tells the guide at a place that the search begins again.
fn restarted_at(guides: &mut Vec<Box<dyn Guide>>, at: usize)
    ensures { vec_len guides.new ≡ vec_len guides.old }
{
    if at < guides.len() {
        guides[at].restarted();
    }
}

// The place after one, in a ring of so many.
fn next_place(count: usize, place: usize) -> usize
    ensures { result ≡ next_place count place }
{
    if place.saturating_add(1) < count {
        place + 1
    } else {
        0
    }
}

// A choice of a free variable of the scope stays, else the first such variable is negated.
fn free_choice(values: &Values, choice: Option<Lit>) -> Lit
    requires { (var : ℕ) × IsFreeInScope values.now var }
    ensures free { IsFreeInScope values.now (var_of result) }
    ensures same { Some result ≡ free_choice values.now choice }
{
    if let Some(lit) = choice {
        if is_pick(values, lit.var()) {
            return lit;
        }
    }
    first_negated(values)
}

// The first free variable of the scope, negated.
fn first_negated(values: &Values) -> Lit
    requires { (var : ℕ) × IsFreeInScope values.now var }
    ensures free { IsFreeInScope values.now (var_of result) }
    ensures same { Some result ≡ first_free_as [] values.now }
{
    match first_free_as(&[], values) {
        Some(lit) => lit,
        None => unreachable!(),
    }
}
