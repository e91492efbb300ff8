ghost use Rattle.std.specs.Prelude.{◌≡◌, ◌<◌, ◌↔◌, List, None, Some, IfOk, length, slice_get, true};
ghost use Rattle.spec_limits.specs.Limits.{exceeded, too_many_variables};
ghost use Rattle.spec_model.specs.declared.relation.Relation.{Relation};
ghost use Rattle.forced_closure.specs.Forced.{IsForced, HasLoop};
ghost use Rattle.forced_closure.specs.Clauses.{AreClauses, AreFacts};

use crate::Forced;
use crate::copied::add_copies;
use crate::gathered::Gathered;
use crate::given::facts_of;
use crate::ruled::add_rules;
use crate::subject::Subject;
use crate::table::{has_loop, table_of};
use crate::telling::tell;
use currency_base::{NoMemory, Pair, RelId};
use horn_closure::{derived_are_least, least};
use order_squares::Squares;
use spec_model::Specification;
use std::alloc::Global;
use std::marker::Model;

/// The forced pairs of a specification, which contracts see in the order in which they were derived.
#[derive(Drop)]
pub struct Closure<'a> {
    spec: &'a Specification,
    squares: Squares<'a>,
    pairs: Vec<Forced>,
    // by slot, whether the pair is forced
    table: Vec<bool>,
    loops: bool,
}

impl<'a> Model for Closure<'a> {
    ghost use Rattle.forced_closure.specs.Derived.{Closed};
    ghost use Rattle.forced_closure.specs.Kept.{IsClosure};

    ghost Value = { Closed };

    ghost view = { λ c. record { spec = c.spec.now; pairs = c.pairs.items } };

    ghost invariant = { λ c. IsClosure (record { spec = c.spec.now; pairs = c.pairs.items }) c.squares c.table.items c.loops };
}

impl<'a> Closure<'a> {
    /// Is the pair forced? Takes constant time and no memory.
    pub fn has(&self, rel: RelId, pair: Pair) -> bool
        requires rel { rel.0 < length self.now.spec.relations }
        requires attr { (r : Relation) → slice_get self.now.spec.relations rel.0 ≡ Some r → pair.attr.0 < length r.attrs }
        ensures { (result ≡ true) ↔ IsForced self.now.spec rel.0 pair.attr.0 pair.earlier pair.later }
    {
        match self.squares.slot(rel, pair) {
            Some(slot) => self.table[slot as usize],
            None => false,
        }
    }

    /// Is a row forced to stand before itself? Takes no memory.
    pub fn loops(&self) -> bool
        ensures { (result ≡ true) ↔ HasLoop self.now.spec }
    {
        self.loops
    }

    /// How many pairs are forced.
    pub fn len(&self) -> usize
        ensures { result ≡ length self.now.pairs }
    {
        self.pairs.len()
    }

    /// The forced pair at a place, in the order in which they were derived.
    pub fn at(&self, place: usize) -> &Forced
        requires { place < length self.now.pairs }
        ensures { slice_get self.now.pairs place ≡ Some result.now }
    {
        &self.pairs[place]
    }
}

/// The forced pairs of a specification within its limits.
pub fn close<'a>(alloc: Global, spec: &'a Specification) -> Result<Closure<'a>, NoMemory>
    requires parts { exceeded spec.now ≡ None }
    requires variables { too_many_variables spec.now ≡ None }
    ensures { IfOk result (λ c. c.spec ≡ spec.now) }
{
    let subject = Subject::new(alloc, spec)?;
    let facts = facts_of(alloc, &subject)?;
    let gathered = gather(alloc, &subject)?;
    closed(alloc, spec, subject, &facts, &gathered)
}

// The clauses of the rules and of the copy functions. Memory is wanting where 32 bits do not hold their number: they
// would take more than a hundred gigabytes.
fn gather(alloc: Global, subject: &Subject<'_>) -> Result<Gathered, NoMemory>
    ensures { IfOk result (AreClauses subject.now) }
{
    let mut gathered = Gathered::new(alloc);
    add_rules(alloc, subject, &mut gathered)?;
    add_copies(subject, &mut gathered)?;
    if gathered.origins().len() > u32::MAX as usize {
        return Err(NoMemory);
    }
    Ok(gathered)
}

// The forced pairs that these facts and clauses give.
fn closed<'a>(
    alloc: Global,
    spec: &'a Specification,
    subject: Subject<'a>,
    facts: &[u32],
    gathered: &Gathered,
) -> Result<Closure<'a>, NoMemory>
    requires spec { subject.spec ≡ spec.now }
    requires facts { AreFacts subject facts.now }
    requires clauses { AreClauses subject gathered.now }
    ensures { IfOk result (λ c. c.spec ≡ spec.now) }
{
    derived_are_least();
    let _ = subject.spec();
    let derived = least(alloc, subject.squares().sizes(), facts, gathered.clauses())?;
    let pairs = tell(alloc, &subject, gathered.origins(), &derived)?;
    let table = table_of(alloc, subject.squares().cells(), &derived)?;
    let loops = has_loop(&pairs);
    Ok(Closure {
        spec,
        squares: subject.into_squares(),
        pairs,
        table,
        loops,
    })
}
