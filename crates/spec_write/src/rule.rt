ghost use Rattle.std.specs.Prelude.{◌≡◌, OnOk};
ghost use Rattle.text_write.specs.Spacing.{writes_all};
ghost use Rattle.spec_write.specs.Pieces.{atom_pieces, cmp_pieces, conclusion_pieces, conditions_pieces, rule_pieces, term_pieces};

use crate::listed::{Separator, Written, write_listed};
use currency_base::{Cmp, NoMemory};
use spec_syntax::{
    ConclusionTree, Named, OrderAtomTree, PredicateTree, PredicateTreeList, RuleTree, TermTree,
};
use text_write::TextWriter;

/// Writes a denial constraint.
#[tactic(auto, using(text_write::proofs::Writings::writes_append))]
pub fn write_rule(into: &mut TextWriter, rule: &RuleTree) -> Result<(), NoMemory>
    ensures { OnOk result (into.new ≡ writes_all into.old (rule_pieces rule.now)) }
{
    into.word("rule")?;
    into.name(&rule.name.name)?;
    into.word("on")?;
    into.name(&rule.relation.name)?;
    into.symbol("(")?;
    write_listed::<VariableText>(into, Separator::Comma, &rule.vars)?;
    into.symbol(")")?;
    into.symbol(":")?;
    write_conditions(into, &rule.predicates)?;
    write_conclusion(into, &rule.conclusion)
}

/// Writes the predicates between `if` and `then`, and neither word where there are none.
#[tactic(auto, using(text_write::proofs::Writings::writes_append))]
fn write_conditions(into: &mut TextWriter, predicates: &PredicateTreeList) -> Result<(), NoMemory>
    ensures { OnOk result (into.new ≡ writes_all into.old (conditions_pieces predicates.now)) }
{
    if predicates.len() == 0 {
        return Ok(());
    }
    into.word("if")?;
    write_listed::<PredicateText>(into, Separator::And, predicates)?;
    into.word("then")
}

/// Writes a conclusion.
fn write_conclusion(into: &mut TextWriter, conclusion: &ConclusionTree) -> Result<(), NoMemory>
    ensures { OnOk result (into.new ≡ writes_all into.old (conclusion_pieces conclusion.now)) }
{
    match conclusion {
        ConclusionTree::Never => into.word("false"),
        ConclusionTree::Order(atom) => write_atom(into, atom),
    }
}

/// Writes that the row of one variable is older than that of another.
fn write_atom(into: &mut TextWriter, atom: &OrderAtomTree) -> Result<(), NoMemory>
    ensures { OnOk result (into.new ≡ writes_all into.old (atom_pieces atom.now)) }
{
    into.word(atom.earlier.name.text())?;
    into.word("before")?;
    into.word(atom.later.name.text())?;
    into.word("in")?;
    into.name(&atom.attr.name)
}

/// A variable.
enum VariableText {}

impl Written for VariableText {
    ghost use Rattle.spec_write.specs.Pieces.{variable_pieces};

    type Tree = Named;

    ghost pieces = { variable_pieces };

    fn write(into: &mut TextWriter, variable: &Named) -> Result<(), NoMemory> {
        into.word(variable.name.text())
    }
}

/// A condition of a rule.
enum PredicateText {}

impl Written for PredicateText {
    ghost use Rattle.spec_write.specs.Pieces.{predicate_pieces};

    type Tree = PredicateTree;

    ghost pieces = { predicate_pieces };

    fn write(into: &mut TextWriter, predicate: &PredicateTree) -> Result<(), NoMemory> {
        match predicate {
            PredicateTree::Order(atom) => write_atom(into, atom),
            PredicateTree::Compare { left, cmp, right } => {
                write_term(into, left)?;
                write_cmp(into, *cmp)?;
                write_term(into, right)
            }
        }
    }
}

/// Writes a term of a comparison.
fn write_term(into: &mut TextWriter, term: &TermTree) -> Result<(), NoMemory>
    ensures { OnOk result (into.new ≡ writes_all into.old (term_pieces term.now)) }
{
    match term {
        TermTree::Field { var, attr } => {
            into.word(var.name.text())?;
            into.symbol(".")?;
            into.name(&attr.name)
        }
        TermTree::Constant(constant) => into.value(&constant.value),
    }
}

/// Writes the symbol of a comparison.
fn write_cmp(into: &mut TextWriter, cmp: Cmp) -> Result<(), NoMemory>
    ensures { OnOk result (into.new ≡ writes_all into.old (cmp_pieces cmp)) }
{
    match cmp {
        Cmp::Eq => into.symbol("="),
        Cmp::Ne => into.symbol("!="),
        Cmp::Lt => into.symbol("<"),
        Cmp::Le => into.symbol("<="),
        Cmp::Gt => into.symbol(">"),
        Cmp::Ge => into.symbol(">="),
    }
}
