use crate::list::ListId;
use crate::ties::{Tie, Ties};
use currency_base::{AttrId, EntId, NoMemory, RelId, Row, RowId};
use denial_rules::{Conclusion, Predicate};
use spec_model::{CopyMap, Relation, Rule};
use std::alloc::Global;

/// An attribute of a relation.
#[derive(Clone, Copy, PartialEq, Eq, PartialOrd, Ord)]
pub(crate) struct Column {
    pub rel: RelId,
    pub attr: AttrId,
}

impl Column {
    /// The list of an entity.
    pub(crate) fn list(&self, ent: EntId) -> ListId {
        ListId {
            rel: self.rel,
            attr: self.attr,
            ent,
        }
    }
}

/// That lists of one column are linked with lists of another: with that of the same entity, or with those of the
/// entities that are tied with theirs, by the ties of this number.
#[derive(Clone, Copy, PartialEq, Eq, PartialOrd, Ord)]
pub(crate) struct Way {
    pub from: Column,
    pub to: Column,
    pub over: Option<usize>,
}

/// The ways between columns, by the column from which they lead, and the ties that they go over.
#[derive(Drop)]
pub(crate) struct Ways {
    ways: Vec<Way>,
    ties: Vec<Ties>,
}

impl Ways {
    /// No way.
    pub(crate) fn new(alloc: Global) -> Ways {
        Ways {
            ways: Vec::new(alloc),
            ties: Vec::new(alloc),
        }
    }

    /// Adds ways between the attributes of which a rule speaks in order predicates or in its conclusion, in a chain: so
    /// each is linked with each over some number of links.
    pub(crate) fn add_rule(&mut self, rule: &Rule) -> Result<(), NoMemory> {
        let mut last = None;
        for predicate in rule.predicates.as_slice() {
            if let Predicate::Order(atom) = predicate {
                self.add_link(rule.relation, last, atom.attr)?;
                last = Some(atom.attr);
            }
        }
        if let Conclusion::Order(atom) = rule.conclusion {
            self.add_link(rule.relation, last, atom.attr)?;
        }
        Ok(())
    }

    // Adds ways between two attributes of a relation, if there are two.
    fn add_link(&mut self, rel: RelId, last: Option<AttrId>, attr: AttrId) -> Result<(), NoMemory> {
        let Some(last) = last else {
            return Ok(());
        };
        if last == attr {
            return Ok(());
        }
        let from = Column { rel, attr: last };
        let to = Column { rel, attr };
        self.add_both(from, to, None, None)
    }

    // Adds a way and the way back.
    fn add_both(
        &mut self,
        from: Column,
        to: Column,
        forth: Option<usize>,
        back: Option<usize>,
    ) -> Result<(), NoMemory> {
        self.ways.push(Way {
            from,
            to,
            over: forth,
        })?;
        self.ways.push(Way {
            from: to,
            to: from,
            over: back,
        })?;
        Ok(())
    }

    /// Adds ways between the attributes at each place of a copy function, over the entities of mapped rows and of the rows
    /// that they were copied from.
    pub(crate) fn add_copy(
        &mut self,
        alloc: Global,
        copy: &CopyMap,
        relations: &[Relation],
    ) -> Result<(), NoMemory> {
        let Some(target_rows) = rows_of(relations, copy.target()) else {
            return Ok(());
        };
        let Some(source_rows) = rows_of(relations, copy.source()) else {
            return Ok(());
        };
        let forth = self.ties.len();
        let (there, here) = ties_of(alloc, copy, target_rows, source_rows)?;
        push_both(&mut self.ties, there, here)?;
        self.add_places(copy, forth)
    }

    // Adds ways between the attributes at each place of a copy function, over the ties of this number and back over the next.
    fn add_places(&mut self, copy: &CopyMap, forth: usize) -> Result<(), NoMemory> {
        let back = forth.saturating_add(1);
        for place in copy.places().as_slice() {
            let from = Column {
                rel: copy.target(),
                attr: place.target,
            };
            let to = Column {
                rel: copy.source(),
                attr: place.source,
            };
            self.add_both(from, to, Some(forth), Some(back))?;
        }
        Ok(())
    }

    /// Puts the ways in order, each once.
    pub(crate) fn order(&mut self) {
        self.ways.sort_unstable();
        self.ways.dedup();
    }

    /// The ways that lead from a column, once they are put in order.
    pub(crate) fn of(&self, from: Column) -> &[Way] {
        let ways = self.ways.as_slice();
        let ways = &ways[ways.partition_point(|way| way.from < from)..];
        &ways[..ways.partition_point(|way| way.from == from)]
    }

    /// The ties of an entity among those of a number, if there are such.
    pub(crate) fn ties(&self, number: usize, from: EntId) -> Option<&[Tie]> {
        Some(self.ties.as_slice().get(number)?.of(from))
    }
}

// The rows of a relation, if it is there.
fn rows_of(relations: &[Relation], rel: RelId) -> Option<&[Row]> {
    Some(relations.get(rel.0 as usize)?.rows.as_slice())
}

// The ties of a copy function that lead from the entities of its target relation, and those that lead back.
fn ties_of(
    alloc: Global,
    copy: &CopyMap,
    target: &[Row],
    source: &[Row],
) -> Result<(Ties, Ties), NoMemory> {
    let mut there = Ties::new(alloc);
    let mut here = Ties::new(alloc);
    add_ties(&mut there, &mut here, copy, target, source)?;
    there.order();
    here.order();
    Ok((there, here))
}

// Adds them.
fn add_ties(
    there: &mut Ties,
    here: &mut Ties,
    copy: &CopyMap,
    target: &[Row],
    source: &[Row],
) -> Result<(), NoMemory> {
    for (number, row) in (0..u32::MAX).zip(target) {
        if let Some(from) = source_entity(copy, source, RowId(number)) {
            there.add(row.entity, from)?;
            here.add(from, row.entity)?;
        }
    }
    Ok(())
}

// Puts ties that lead from entities and those that lead back after the others.
fn push_both(ties: &mut Vec<Ties>, there: Ties, here: Ties) -> Result<(), NoMemory> {
    ties.push(there)?;
    ties.push(here)?;
    Ok(())
}

// The entity of the row that a row was copied from, if it was.
fn source_entity(copy: &CopyMap, source: &[Row], row: RowId) -> Option<EntId> {
    let from = copy.source_of(row)?;
    Some(source.get(from.0 as usize)?.entity)
}
