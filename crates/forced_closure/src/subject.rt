ghost use Rattle.std.specs.Prelude.{◌≡◌, ◌<◌, ◌^◌, Some, IfOk, length, slice_get};
ghost use Rattle.order_squares.specs.Squares.{IsSlot, Stand};
ghost use Rattle.forced_closure.specs.Clauses.{IsSubject};

use currency_base::{CopyId, NoMemory, Pair, RelId, RowId, RuleId};
use denial_rules::Rule;
use entity_ground::{CopiedPair, Grounds, instances};
use flat_lists::FlatLists;
use order_squares::Squares;
use spec_model::{CopyMap, Relation, Specification};
use std::alloc::Global;
use std::marker::Model;

/// A specification, its squares, and the grounds of its rules and of its copy functions.
#[derive(Drop)]
pub(crate) struct Subject<'a> {
    spec: &'a Specification,
    squares: Squares<'a>,
    grounds: Grounds,
}

impl<'a> Model for Subject<'a> {
    ghost use Rattle.forced_closure.specs.Clauses.{IsSubject};
    ghost use Rattle.forced_closure.specs.Clauses as clauses;

    ghost Value = { clauses.Subject };

    ghost view = { λ s. record { spec = s.spec.now; layout = s.squares; rules = s.grounds.rules; copies = s.grounds.copies } };

    ghost invariant = { λ s. IsSubject
        (record { spec = s.spec.now; layout = s.squares; rules = s.grounds.rules; copies = s.grounds.copies }) };
}

impl<'a> Subject<'a> {
    /// The squares and the grounds of a specification.
    pub(crate) fn new(alloc: Global, spec: &'a Specification) -> Result<Subject<'a>, NoMemory>
        ensures { IfOk result (λ subject. subject.spec ≡ spec.now) }
    {
        let _ = spec.rules();
        let _ = spec.copies();
        let squares = Squares::new(alloc, spec.relations())?;
        let grounds = instances(alloc, spec)?;
        let _ = squares.sizes();
        Ok(Subject {
            spec,
            squares,
            grounds,
        })
    }

    /// The specification.
    pub(crate) fn spec(&self) -> &'a Specification
        ensures value { result.now ≡ self.now.spec }
        ensures facts { IsSubject self.now }
    {
        self.spec
    }

    /// How many relations there are.
    pub(crate) fn relations(&self) -> usize
        ensures value { result ≡ length self.now.spec.relations }
        ensures few { length self.now.spec.relations < 2 ^ 32 }
    {
        self.spec.relations().len()
    }

    /// How many rules there are.
    pub(crate) fn rules(&self) -> usize
        ensures value { result ≡ length self.now.spec.rules }
        ensures few { length self.now.spec.rules < 2 ^ 32 }
    {
        self.spec.rules().len()
    }

    /// How many copy functions there are.
    pub(crate) fn copies(&self) -> usize
        ensures value { result ≡ length self.now.spec.copies }
        ensures few { length self.now.spec.copies < 2 ^ 32 }
    {
        self.spec.copies().len()
    }

    /// The relation of an id.
    pub(crate) fn relation(&self, rel: RelId) -> &Relation
        requires { rel.0 < length self.now.spec.relations }
        ensures { slice_get self.now.spec.relations rel.0 ≡ Some result.now }
    {
        &self.spec.relations()[rel.0 as usize]
    }

    /// The rule of an id.
    pub(crate) fn rule(&self, rule: RuleId) -> &Rule
        requires { rule.0 < length self.now.spec.rules }
        ensures { slice_get self.now.spec.rules rule.0 ≡ Some result.now }
    {
        &self.spec.rules()[rule.0 as usize]
    }

    /// The grounds of a rule.
    pub(crate) fn grounds_of(&self, rule: RuleId) -> &FlatLists<RowId>
        requires { rule.0 < length self.now.rules }
        ensures { slice_get self.now.rules rule.0 ≡ Some result.now }
    {
        self.grounds.rules.get(rule.0 as usize)
    }

    /// The copy function of an id.
    pub(crate) fn copy(&self, copy: CopyId) -> &CopyMap
        requires { copy.0 < length self.now.spec.copies }
        ensures { slice_get self.now.spec.copies copy.0 ≡ Some result.now }
    {
        &self.spec.copies()[copy.0 as usize]
    }

    /// The pairs of a copy function.
    pub(crate) fn pairs_of(&self, copy: CopyId) -> &[CopiedPair]
        requires { copy.0 < length self.now.copies }
        ensures { slice_get self.now.copies copy.0 ≡ Some result.now }
    {
        self.grounds.copies.get(copy.0 as usize).as_slice()
    }

    /// The squares.
    pub(crate) fn squares(&self) -> &Squares<'a>
        ensures { result.now ≡ self.now.layout }
    {
        &self.squares
    }

    /// The squares alone.
    pub(crate) fn into_squares(self) -> Squares<'a>
        ensures { result ≡ self.entry.layout }
    {
        let Subject { squares, .. } = self;
        squares
    }

    /// The slot of a pair of rows of one entity.
    pub(crate) fn slot(&self, rel: RelId, pair: Pair) -> u32
        requires { Stand self.now.spec.relations rel.0 pair.attr.0 pair.earlier pair.later }
        ensures { IsSlot self.now.layout rel.0 pair.attr.0 pair.earlier pair.later result }
    {
        self.squares.slot_of(rel, pair)
    }
}
