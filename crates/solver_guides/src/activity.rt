ghost use Rattle.std.specs.Prelude.{◌≡◌, ◌==◌, ◌<◌, ◌≤◌, ◌^◌, [], None, true, false, if◌then◌else◌, length, not, replicate, slice_set, IfSome, OnOk, OnErr};
ghost use Rattle.currency_base.specs.Literals.{var_of, is_negative};
ghost use Rattle.solver_guides.specs.Choices.{greatest_choice, greatest_of};
ghost use Rattle.solver_guides.specs.Known.{bump_after, bump_of, counts_after, counts_of, grown, marked, present_of, put_back, raised, truths_of};

use crate::Guide;
use crate::choices::{as_in, copied, is_pick, set_phase};
use count_tree::CountTree;
use currency_base::{Assignment, Lit, NoMemory};
use search_trail::Values;
use std::alloc::Global;

/// Picks the free variable of the scope that was seen most in conflicts, late ones more than early ones, with the value
/// that it had when it was last freed. A variable that it was not fitted for is never picked.
#[derive(Drop)]
pub struct Activity {
    // a variable of the scope is present from when it is freed, or the scope is entered, until it is met at the root with a
    // value; one beyond the scope may be, until it is met at the root
    tree: CountTree,
    phases: Vec<bool>,
    bump: u64,
}

// What the first conflict adds to a count.
const FIRST_BUMP: u64 = 1 << 16;
// The bump grows by one part in so many with each variable that is seen.
const GROWTH: u64 = 2048;
// Where the bump is above this, it and all counts are divided.
const MOST_BUMP: u64 = 1 << 50;
// The power of two that they are divided by.
const SCALE: u32 = 34;

impl Activity {
    /// It knows no variable yet.
    pub fn new(alloc: Global) -> Activity
        ensures counts { counts_of result ≡ [] }
        ensures present { present_of result ≡ [] }
        ensures truths { truths_of result ≡ [] }
        ensures bump { bump_of result ≡ 2 ^ 16 }
    {
        Activity {
            tree: CountTree::new(alloc),
            phases: Vec::new(alloc),
            bump: FIRST_BUMP,
        }
    }
}

impl Guide for Activity {
    ghost choice = { λ g. greatest_choice (counts_of g) (present_of g) (truths_of g) };

    ghost has_room = { λ g vars. length (counts_of g) == vars };

    ghost may_fit = { λ g vars fits h. length (counts_of h) == (if fits then vars else length (counts_of g)) };

    fn fit(&mut self, alloc: Global, start: &Assignment) -> Result<(), NoMemory>
        ensures counts { OnOk result (counts_of self.new ≡ replicate (length start.now) 0) }
        ensures present { OnOk result (present_of self.new ≡ replicate (length start.now) true) }
        ensures truths { OnOk result (truths_of self.new ≡ start.now) }
        ensures bump { OnOk result (bump_of self.new ≡ 2 ^ 16) }
        ensures err { OnErr result (self.new ≡ self.old) }
    {
        let phases = match copied(alloc, start) {
            Ok(phases) => phases,
            Err(fault) => return Err(fault),
        };
        match self.tree.fit(alloc, start.vars()) {
            Ok(()) => {
                self.phases = phases;
                self.bump = FIRST_BUMP;
                Ok(())
            }
            Err(fault) => Err(fault),
        }
    }

    fn pick(&mut self, values: &Values) -> Option<Lit>
        ensures picks { result ≡ greatest_choice (counts_of self.old) (present_of self.old) (truths_of self.old) values.now }
        ensures counts { counts_of self.new ≡ counts_of self.old }
        ensures truths { truths_of self.new ≡ truths_of self.old }
        ensures bump { bump_of self.new ≡ bump_of self.old }
    {
        match greatest_free(&mut self.tree, values) {
            Some(var) => Some(as_in(&self.phases, var)),
            None => None,
        }
    }

    fn saw(&mut self, var: u32)
        ensures counts { var < length (counts_of self.old) → counts_of self.new ≡ counts_after (counts_of self.old)
            var (bump_of self.old) }
        ensures bump { var < length (counts_of self.old) → bump_of self.new ≡ bump_after (bump_of self.old) }
        ensures beyond { length (counts_of self.old) ≤ var → self.new ≡ self.old }
        ensures present { present_of self.new ≡ present_of self.old }
        ensures truths { truths_of self.new ≡ truths_of self.old }
    {
        if var >= self.tree.len() {
            return;
        }
        raise(&mut self.tree, var, self.bump);
        let bump = self.bump.saturating_add(self.bump / GROWTH);
        if bump <= MOST_BUMP {
            self.bump = bump;
            return;
        }
        self.tree.divide(SCALE);
        self.bump = bump / (1 << SCALE);
    }

    fn freed(&mut self, lit: Lit, values: &Values)
        ensures present { present_of self.new ≡ put_back (present_of self.old) values.now.scope (var_of lit) }
        ensures truths { truths_of self.new ≡ slice_set (truths_of self.old) (var_of lit) (not (is_negative lit)) }
        ensures counts { counts_of self.new ≡ counts_of self.old }
        ensures bump { bump_of self.new ≡ bump_of self.old }
    {
        set_phase(&mut self.phases, lit);
        if values.has(lit.var()) {
            mark(&mut self.tree, lit.var(), true);
        }
    }

    fn leave(&mut self, _scope: &[u32])
        ensures { self.new ≡ self.old }
    {}

    fn enter(&mut self, scope: &[u32])
        ensures present { present_of self.new ≡ marked (present_of self.old) scope.now true }
        ensures truths { truths_of self.new ≡ truths_of self.old }
        ensures counts { counts_of self.new ≡ counts_of self.old }
        ensures bump { bump_of self.new ≡ bump_of self.old }
    {
        make_present(&mut self.tree, scope);
    }

    fn restarted(&mut self)
        ensures { self.new ≡ self.old }
    {}
}

// Adds the bump to the count of a variable.
fn raise(tree: &mut CountTree, var: u32, bump: u64)
    requires { var < length tree.old.counts }
    ensures counts { tree.new.counts ≡ raised tree.old.counts var bump }
    ensures present { tree.new.present ≡ tree.old.present }
{
    let count = tree.count(var);
    tree.set_count(var, count.saturating_add(bump));
}

// Makes a variable present or takes it off, where it is in range.
fn mark(tree: &mut CountTree, var: u32, present: bool)
    ensures counts { tree.new.counts ≡ tree.old.counts }
    ensures present { tree.new.present ≡ slice_set tree.old.present var present }
{
    if var < tree.len() {
        tree.set_present(var, present);
    }
}

// Makes variables present, where they are in range: the first one first, so that of equal counts
// the others stand at few nodes.
fn make_present(tree: &mut CountTree, vars: &[u32])
    ensures counts { tree.new.counts ≡ tree.old.counts }
    ensures present { tree.new.present ≡ marked tree.old.present vars.now true }
{
    for var in vars {
        mark(tree, *var, true);
    }
}

// The free variable of the scope with the greatest count, of those that are present. What has a value or is beyond the
// scope is taken off on the way.
fn greatest_free(tree: &mut CountTree, values: &Values) -> Option<u32>
    ensures found { result ≡ greatest_of tree.old.counts tree.old.present values.now.given values.now.scope None }
    ensures few { IfSome result (λ var. var < 2 ^ 31) }
    ensures counts { tree.new.counts ≡ tree.old.counts }
{
    // the scope ascends
    let _scope = values.scope();
    while let Some(var) = tree.greatest() {
        if is_pick(values, var) {
            return Some(var);
        }
        // the two lists of the tree are of one length
        let _numbers = tree.len();
        tree.set_present(var, false);
    }
    None
}
