ghost use Rattle.std.specs.Prelude.{◌≡◌};
ghost use Rattle.bind_faults.specs.Faults.{first_of};
ghost use Rattle.spec_model.specs.Facts.{kinds_of};
ghost use Rattle.rule_bind.specs.Ruled.{differ, line_of, mismatch, term_kind};

use bind_faults::{BindFault, Refusal};
use currency_base::{ErrorCode, ValueKind};
use name_index::NameIndex;
use rule_syntax::{PredicateTree, TermTree};
use spec_model::Relation;

/// The refusal of the first comparison of two kinds.
pub fn first_mismatch(
    attrs: &NameIndex,
    relation: &Relation,
    trees: &[PredicateTree],
) -> Option<BindFault>
    ensures { result ≡ first_of (mismatch attrs.now (kinds_of relation.now)) trees.now }
{
    for tree in trees {
        if let Some(fault) = mismatch(attrs, relation, tree) {
            return Some(fault);
        }
    }
    None
}

/// The refusal of a comparison of two kinds, at its left term.
fn mismatch(attrs: &NameIndex, relation: &Relation, tree: &PredicateTree) -> Option<BindFault>
    ensures { result ≡ mismatch attrs.now (kinds_of relation.now) tree.now }
{
    match tree {
        PredicateTree::Order(_) => None,
        PredicateTree::Compare { left, right, .. } => {
            let kinds = (
                term_kind(attrs, relation, left),
                term_kind(attrs, relation, right),
            );
            if !differ(kinds.0, kinds.1) {
                return None;
            }
            Some(BindFault::Refused(Refusal {
                code: ErrorCode::Mismatch,
                document: None,
                line: line_of(left),
            }))
        }
    }
}

/// The kind of a term, where its attribute is there.
fn term_kind(attrs: &NameIndex, relation: &Relation, term: &TermTree) -> Option<ValueKind>
    ensures { result ≡ term_kind attrs.now (kinds_of relation.now) term.now }
{
    match term {
        TermTree::Field { attr, .. } => {
            let place = attrs.find(&attr.name)?;
            let attr = relation.attrs.as_slice().get(place)?;
            Some(attr.kind)
        }
        TermTree::Constant(constant) => Some(constant.value.kind()),
    }
}

/// Are there two kinds, and not one?
fn differ(left: Option<ValueKind>, right: Option<ValueKind>) -> bool
    ensures { result ≡ differ left right }
{
    match (left, right) {
        (Some(ValueKind::Text), Some(ValueKind::Int)) => true,
        (Some(ValueKind::Int), Some(ValueKind::Text)) => true,
        _ => false,
    }
}

/// The line of a term's first token.
fn line_of(term: &TermTree) -> u32
    ensures { result ≡ line_of term.now }
{
    match term {
        TermTree::Field { var, .. } => var.line,
        TermTree::Constant(constant) => constant.line,
    }
}
