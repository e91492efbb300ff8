ghost use Rattle.std.specs.Prelude.{◌≡◌, ◌<◌, ◌∷◌, [], IfNone, IfSome, length, option_map, slice_get};
ghost use Rattle.match_candidates.specs.Meant.{first_left, next_left};

use crate::at::At;
use currency_base::EntId;
use query_model::{Atom, Term};
use std::marker::Model;

/// What is left of a search: the terms of an atom from a place on, and further atoms.
#[derive(Drop)]
pub(crate) struct Rest<'a> {
    at: At,
    terms: &'a [Term],
    atoms: &'a [Atom],
}

impl<'a> Model for Rest<'a> {
    ghost use Rattle.match_candidates.specs.Meant.{Left};

    ghost Value = { Left };

    ghost view = { λ r. record { at = r.at; terms = r.terms.now; atoms = r.atoms.now } };
}

impl<'a> Rest<'a> {
    /// These atoms, and no term before them; the place is none that matters.
    pub(crate) fn of_atoms(at: At, atoms: &'a [Atom]) -> Rest<'a>
        ensures { result ≡ record { at = at; terms = []; atoms = atoms.now } }
    {
        Rest {
            at,
            terms: &[],
            atoms,
        }
    }

    /// All terms of an atom at an entity, and these atoms after it.
    pub(crate) fn of_atom(atom: &'a Atom, ent: EntId, atoms: &'a [Atom]) -> Rest<'a>
        ensures { result ≡ first_left atom.now ent atoms.now }
    {
        let at = At {
            rel: atom.relation,
            ent,
            place: 0,
        };
        Rest {
            at,
            terms: atom.terms.as_slice(),
            atoms,
        }
    }

    /// The place of the first term that is left.
    pub(crate) fn at(&self) -> At
        ensures { result ≡ self.now.at }
    {
        self.at
    }

    /// The first term that is left, if there is one.
    pub(crate) fn term(&self) -> Option<&'a Term>
        ensures { option_map (λ t. t.now) result ≡ slice_get self.now.terms self.now.at.place }
    {
        self.terms.get(self.at.place)
    }

    /// What is left after that term.
    pub(crate) fn next(&self) -> Rest<'a>
        requires { self.now.at.place < length self.now.terms }
        ensures { result ≡ next_left self.now }
    {
        let at = At {
            rel: self.at.rel,
            ent: self.at.ent,
            place: self.at.place + 1,
        };
        Rest {
            at,
            terms: self.terms,
            atoms: self.atoms,
        }
    }

    /// The first of the further atoms, and those after it.
    pub(crate) fn atom(&self) -> Option<(&'a Atom, &'a [Atom])>
        ensures some { IfSome result (λ next. self.now.atoms ≡ next.0.now ∷ next.1.now) }
        ensures none { IfNone result (self.now.atoms ≡ []) }
    {
        match self.atoms {
            [] => None,
            [atom, rest @ ..] => Some((atom, rest)),
        }
    }
}
