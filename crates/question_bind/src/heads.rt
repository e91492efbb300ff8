// The heads of asked parts.

ghost use Rattle.std.specs.Prelude.{◌≡◌, IfOk};
ghost use Rattle.bind_faults.specs.Faults.{all_of, IsDue};
ghost use Rattle.question_bind.specs.Steps.{AreNumbered, IsHeadOn, head_named};

use bind_faults::{BindFault, find};
use currency_base::{ErrorCode, ItemList};
use question_syntax::AskedTree;
use spec_names::SpecNames;
use std::alloc::Global;

/// What stands before the pairs of a part: the place of its relation, and that of its attribute where a
/// text says it.
#[derive(Clone, Copy, PartialEq, Eq)]
pub struct Head {
    pub rel: usize,
    pub attr: Option<usize>,
}

/// Heads, in the order of the parts.
pub type HeadList = ItemList<Head>;

/// The heads of parts, or the refusal of the first name that is unknown.
pub fn heads_of(
    alloc: Global,
    names: &SpecNames,
    trees: &[AskedTree],
) -> Result<HeadList, BindFault>
    requires { AreNumbered names.now }
    ensures { IsDue (all_of (head_named names.now) trees.now) result }
{
    let mut heads = HeadList::new(alloc);
    for tree in trees {
        match head_of(names, tree) {
            Ok(head) => {
                let Ok(()) = heads.push(head) else {
                    return Err(BindFault::NoMemory);
                };
            }
            Err(fault) => return Err(fault),
        }
    }
    Ok(heads)
}

/// The head of a part: an unknown relation is refused first, then an unknown attribute.
fn head_of(names: &SpecNames, tree: &AskedTree) -> Result<Head, BindFault>
    requires { AreNumbered names.now }
    ensures { result ≡ head_named names.now tree.now }
{
    match tree {
        AskedTree::Ordering(ordering) => {
            let rel = find(
                names.relations(),
                &ordering.relation,
                ErrorCode::UnknownName,
            )?;
            let attrs = &names.relation(rel).attrs;
            let attr = find(attrs, &ordering.attr, ErrorCode::UnknownName)?;
            Ok(Head {
                rel,
                attr: Some(attr),
            })
        }
        AskedTree::Table { relation, .. } => {
            let rel = find(names.relations(), relation, ErrorCode::UnknownName)?;
            Ok(Head { rel, attr: None })
        }
    }
}
