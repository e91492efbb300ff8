// The parts of a rule, with numbers and ids in place of names. `vars` are the names of the rule's
// variables, and `attrs` those of its relation's attributes.

ghost use Rattle.std.specs.Prelude.{◌≡◌, ◌<◌, length};
ghost use Rattle.bind_faults.specs.Faults.{IsDue, all_of};
ghost use Rattle.rule_bind.specs.Ruled.{atom_of, conclusion_of, field_of, named_in, operand_of, predicate_of};

use bind_faults::{BindFault, find};
use currency_base::{AttrId, ErrorCode};
use denial_rules::{Conclusion, Operand, OrderAtom, Predicate, PredicateList};
use name_index::NameIndex;
use rule_syntax::{ConclusionTree, OrderAtomTree, PredicateTree, TermTree};
use std::alloc::Global;
use text_grammar::Named;

/// The place of a name, or the refusal of an unknown one.
fn place_of(names: &NameIndex, named: &Named) -> Result<u32, BindFault>
    requires { length names.now < 4294967296 }
    ensures { result ≡ named_in names.now named.now }
{
    let place = find(names, named, ErrorCode::UnknownName)?;
    Ok(place as u32)
}

/// The order atom that a tree says.
fn atom_of(
    vars: &NameIndex,
    attrs: &NameIndex,
    tree: &OrderAtomTree,
) -> Result<OrderAtom, BindFault>
    requires vars { length vars.now < 4294967296 }
    requires attrs { length attrs.now < 4294967296 }
    ensures { result ≡ atom_of vars.now attrs.now tree.now }
{
    let earlier = place_of(vars, &tree.earlier)?;
    let later = place_of(vars, &tree.later)?;
    let attr = AttrId(place_of(attrs, &tree.attr)?);
    Ok(OrderAtom {
        earlier,
        later,
        attr,
    })
}

/// The field that a variable and an attribute say.
fn field_of(
    vars: &NameIndex,
    attrs: &NameIndex,
    var: &Named,
    attr: &Named,
) -> Result<Operand, BindFault>
    requires vars { length vars.now < 4294967296 }
    requires attrs { length attrs.now < 4294967296 }
    ensures { result ≡ field_of vars.now attrs.now var.now attr.now }
{
    let var = place_of(vars, var)?;
    let attr = AttrId(place_of(attrs, attr)?);
    Ok(Operand::Field { var, attr })
}

/// The operand that a term says; a constant is copied.
fn operand_of(
    alloc: Global,
    vars: &NameIndex,
    attrs: &NameIndex,
    tree: &TermTree,
) -> Result<Operand, BindFault>
    requires vars { length vars.now < 4294967296 }
    requires attrs { length attrs.now < 4294967296 }
    ensures { IsDue (operand_of vars.now attrs.now tree.now) result }
{
    match tree {
        TermTree::Field { var, attr } => field_of(vars, attrs, var, attr),
        TermTree::Constant(constant) => match constant.value.duplicate(alloc) {
            Ok(value) => Ok(Operand::Constant(value)),
            Err(_) => Err(BindFault::NoMemory),
        },
    }
}

/// The predicate that a tree says.
fn predicate_of(
    alloc: Global,
    vars: &NameIndex,
    attrs: &NameIndex,
    tree: &PredicateTree,
) -> Result<Predicate, BindFault>
    requires vars { length vars.now < 4294967296 }
    requires attrs { length attrs.now < 4294967296 }
    ensures { IsDue (predicate_of vars.now attrs.now tree.now) result }
{
    match tree {
        PredicateTree::Order(tree) => match atom_of(vars, attrs, tree) {
            Ok(atom) => Ok(Predicate::Order(atom)),
            Err(fault) => Err(fault),
        },
        PredicateTree::Compare { left, cmp, right } => {
            let left = operand_of(alloc, vars, attrs, left)?;
            let right = operand_of(alloc, vars, attrs, right)?;
            Ok(Predicate::Compare {
                left,
                cmp: *cmp,
                right,
            })
        }
    }
}

/// The predicates that trees say.
pub fn predicates_of(
    alloc: Global,
    vars: &NameIndex,
    attrs: &NameIndex,
    trees: &[PredicateTree],
) -> Result<PredicateList, BindFault>
    requires vars { length vars.now < 4294967296 }
    requires attrs { length attrs.now < 4294967296 }
    ensures { IsDue (all_of (predicate_of vars.now attrs.now) trees.now) result }
{
    let mut predicates = PredicateList::new(alloc);
    for tree in trees {
        match predicate_of(alloc, vars, attrs, tree) {
            Ok(predicate) => {
                let Ok(()) = predicates.push(predicate) else {
                    return Err(BindFault::NoMemory);
                };
            }
            Err(fault) => return Err(fault),
        }
    }
    Ok(predicates)
}

/// The conclusion that a tree says.
pub fn conclusion_of(
    vars: &NameIndex,
    attrs: &NameIndex,
    tree: &ConclusionTree,
) -> Result<Conclusion, BindFault>
    requires vars { length vars.now < 4294967296 }
    requires attrs { length attrs.now < 4294967296 }
    ensures { result ≡ conclusion_of vars.now attrs.now tree.now }
{
    match tree {
        ConclusionTree::Never => Ok(Conclusion::Never),
        ConclusionTree::Order(tree) => match atom_of(vars, attrs, tree) {
            Ok(atom) => Ok(Conclusion::Order(atom)),
            Err(fault) => Err(fault),
        },
    }
}
