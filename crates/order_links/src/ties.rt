use currency_base::{EntId, NoMemory};
use std::alloc::Global;

/// That rows of two entities, of one relation each, were copied from one another.
#[derive(Clone, Copy, PartialEq, Eq, PartialOrd, Ord)]
pub(crate) struct Tie {
    pub from: EntId,
    pub to: EntId,
}

/// Ties of the entities of two relations, by the entity from which they lead.
#[derive(Drop)]
pub(crate) struct Ties {
    ties: Vec<Tie>,
}

impl Ties {
    /// No tie.
    pub(crate) fn new(alloc: Global) -> Ties {
        Ties {
            ties: Vec::new(alloc),
        }
    }

    /// Adds a tie. It is found once the ties are put in order.
    pub(crate) fn add(&mut self, from: EntId, to: EntId) -> Result<(), NoMemory> {
        self.ties.push(Tie { from, to })?;
        Ok(())
    }

    /// Puts the ties in order, each once.
    pub(crate) fn order(&mut self) {
        self.ties.sort_unstable();
        self.ties.dedup();
    }

    /// The ties that lead from an entity.
    pub(crate) fn of(&self, from: EntId) -> &[Tie] {
        let ties = self.ties.as_slice();
        let ties = &ties[ties.partition_point(|tie| tie.from < from)..];
        &ties[..ties.partition_point(|tie| tie.from == from)]
    }
}
