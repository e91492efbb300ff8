// Questions on pairs.

ghost use Rattle.std.specs.Prelude.{◌≡◌, ◌≤◌, ◌∷◌, ℕ, List, [], map, count_by, All, IfOk, IfSome};
ghost use Rattle.currency_edge.specs.Fault.{Rose};
ghost use Rattle.bind_faults.specs.Faults.{IsDetermined, IsReadFault, IsReadFaultOf};
ghost use Rattle.spec_model.specs.Questions.{IsAskedPair, IsQuestionOn};
ghost use Rattle.question_bind.specs.Bound.{AreGroupsAsked, IsGroupTableDue, certain_of, groups_of};
ghost use Rattle.question_bind.specs.Steps.{AreNamesOf, IsCertain, has_table};

use crate::group::ask_group;
use bind_faults::{BindFault, Refusal};
use currency_base::{ErrorCode, NoMemory};
use currency_edge::Shelf;
use question_syntax::AskedTree;
use spec_model::{AskedList, Question, Specification};
use spec_names::SpecNames;
use std::alloc::Global;
use std::slice;

/// The question on the pairs that parts say; where there is none, the word of that line is refused.
pub fn bind_certain<S: Shelf>(
    alloc: Global,
    spec: &Specification,
    line: u32,
    trees: &[AskedTree],
    shelf: &mut S,
) -> Result<Question, BindFault>
    ensures kept { S.texts shelf.new ≡ S.texts shelf.old }
    ensures later { S.faults shelf.old ≤ S.faults shelf.new }
    ensures bound { IsDetermined result → IfSome (S.texts shelf.old)
        (λ told. IsCertain told spec.now.relations line trees.now result) }
    ensures fits { IfOk result (IsQuestionOn spec.now.relations) }
    ensures read_fault { IsReadFault result → Rose (S.faults shelf.old) (S.faults shelf.new) }
    ensures table_due { (name : List ℕ) → IsReadFaultOf result name
        → IfSome (S.texts shelf.old) (λ told. IsGroupTableDue told spec.now.relations [] (groups_of trees.now) name) }
{
    let names = names_of(alloc, spec)?;
    match ask_groups(alloc, spec, &names, trees, shelf) {
        Ok(pairs) => certain_of(line, pairs),
        Err(fault) => Err(fault),
    }
}

/// The pairs that parts say: all of them step by step, where one table or none is read, and else one part
/// after another.
fn ask_groups<S: Shelf>(
    alloc: Global,
    spec: &Specification,
    names: &SpecNames,
    trees: &[AskedTree],
    shelf: &mut S,
) -> Result<AskedList, BindFault>
    requires { AreNamesOf names.now spec.now }
    ensures kept { S.texts shelf.new ≡ S.texts shelf.old }
    ensures later { S.faults shelf.old ≤ S.faults shelf.new }
    ensures asked { IsDetermined result → IfSome (S.texts shelf.old) (λ told. AreGroupsAsked told spec.now.relations []
        (groups_of trees.now) result) }
    ensures fits { IfOk result (All (IsAskedPair spec.now.relations)) }
    ensures read_fault { IsReadFault result → Rose (S.faults shelf.old) (S.faults shelf.new) }
    ensures table_due { (name : List ℕ) → IsReadFaultOf result name
        → IfSome (S.texts shelf.old) (λ told. IsGroupTableDue told spec.now.relations [] (groups_of trees.now) name) }
{
    if count_tables(trees) <= 1 {
        let none = AskedList::new(alloc);
        ask_group(alloc, spec, names, none, trees, shelf)
    } else {
        ask_each(alloc, spec, names, trees, shelf)
    }
}

/// The pairs that parts say, one part after another.
fn ask_each<S: Shelf>(
    alloc: Global,
    spec: &Specification,
    names: &SpecNames,
    trees: &[AskedTree],
    shelf: &mut S,
) -> Result<AskedList, BindFault>
    requires { AreNamesOf names.now spec.now }
    ensures kept { S.texts shelf.new ≡ S.texts shelf.old }
    ensures later { S.faults shelf.old ≤ S.faults shelf.new }
    ensures asked { IsDetermined result → IfSome (S.texts shelf.old) (λ told. AreGroupsAsked told spec.now.relations []
        (map (λ t. t ∷ []) trees.now) result) }
    ensures fits { IfOk result (All (IsAskedPair spec.now.relations)) }
    ensures read_fault { IsReadFault result → Rose (S.faults shelf.old) (S.faults shelf.new) }
    ensures table_due { (name : List ℕ) → IsReadFaultOf result name
        → IfSome (S.texts shelf.old) (λ told. IsGroupTableDue told spec.now.relations [] (map (λ t. t ∷ []) trees.now) name) }
{
    let mut asked = AskedList::new(alloc);
    for tree in trees {
        let part = slice::from_ref(tree);
        asked = match ask_group(alloc, spec, names, asked, part, shelf) {
            Ok(next) => next,
            Err(fault) => return Err(fault),
        };
    }
    Ok(asked)
}

/// The names of a specification and its parts.
fn names_of(alloc: Global, spec: &Specification) -> Result<SpecNames, NoMemory>
    ensures { IfOk result (λ names. AreNamesOf names spec.now) }
{
    let _relations = spec.relations();
    SpecNames::of(alloc, spec)
}

/// How many parts have a table.
fn count_tables(trees: &[AskedTree]) -> usize
    ensures { result ≡ count_by has_table trees.now }
{
    trees.iter().filter(|tree| has_table(tree)).count()
}

/// Does the part have a table?
fn has_table(tree: &AskedTree) -> bool
    ensures { result ≡ has_table tree.now }
{
    match tree {
        AskedTree::Ordering(_) => false,
        AskedTree::Table { .. } => true,
    }
}

/// The question on these pairs.
fn certain_of(line: u32, pairs: AskedList) -> Result<Question, BindFault>
    ensures { result ≡ certain_of line pairs }
{
    if pairs.len() > 0 {
        Ok(Question::Certain(pairs))
    } else {
        Err(BindFault::Refused(Refusal {
            code: ErrorCode::Syntax,
            document: None,
            line,
        }))
    }
}
