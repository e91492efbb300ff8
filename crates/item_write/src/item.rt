ghost use Rattle.std.specs.Prelude.{◌≡◌, ◌<◌, All, Contains, OnOk, length};
ghost use Rattle.report_model.specs.Writable.{IsPairOf};
ghost use Rattle.spec_items.specs.Items.{items_of};
ghost use Rattle.text_write.specs.Spacing.{writes_all};
ghost use Rattle.item_write.specs.Pieces.{copied_pieces, given_pieces, item_pieces, items_pieces, ruled_pieces};
ghost use Rattle.item_write.specs.Placed.{IsMapped, IsPlaced};

use crate::names::{write_copy_name, write_mapping, write_rule_name};
use currency_base::{CopyId, NoMemory, Pair, RelId, RowId, RuleId};
use report_write::{write_attribute, write_row};
use spec_items::Item;
use spec_model::{Relation, Rule, Specification};
use text_write::TextWriter;

/// Writes an item of a specification: a given pair, the name of a rule, or a row of a copy function's target relation and the one
/// that it is copied from.
pub fn write_item(into: &mut TextWriter, spec: &Specification, item: Item) -> Result<(), NoMemory>
    requires { Contains (items_of spec.now) item }
    ensures { OnOk result (into.new ≡ writes_all into.old (item_pieces spec.now item)) }
{
    is_placed(spec, item);
    match item {
        Item::Given { rel, pair } => write_given(into, spec.relations(), rel, pair),
        Item::Rule(rule) => write_rule(into, spec.rules(), rule),
        Item::Copy { copy, target } => write_copied(into, spec, copy, target),
    }
}

/// Writes items of a specification, a line each.
pub fn write_items(
    into: &mut TextWriter,
    spec: &Specification,
    items: &[Item],
) -> Result<(), NoMemory>
    requires { All (Contains (items_of spec.now)) items.now }
    ensures { OnOk result (into.new ≡ writes_all into.old (items_pieces spec.now items.now)) }
{
    for item in items {
        write_item(into, spec, *item)?;
    }
    Ok(())
}

/// A law: what an item of a specification speaks of is there.
fn is_placed(spec: &Specification, item: Item)
    requires { Contains (items_of spec.now) item }
    ensures { IsPlaced spec.now item }
{
    let _ = spec.relations();
    let _ = spec.copies();
}

/// Writes a given pair.
#[tactic(auto, using(text_write::proofs::Writings::writes_append))]
fn write_given(
    into: &mut TextWriter,
    relations: &[Relation],
    rel: RelId,
    pair: Pair,
) -> Result<(), NoMemory>
    requires { IsPairOf relations.now (record { rel = rel; pair = pair }) }
    ensures { OnOk result (into.new ≡ writes_all into.old (given_pieces relations.now (record { rel = rel; pair = pair }))) }
{
    into.word("item")?;
    into.word("given")?;
    write_attribute(into, relations, rel, pair.attr)?;
    into.symbol(":")?;
    write_row(into, relations, rel, pair.earlier)?;
    into.symbol("<")?;
    write_row(into, relations, rel, pair.later)?;
    into.symbol(";")
}

/// Writes a rule's name.
#[tactic(auto, using(text_write::proofs::Writings::writes_append))]
fn write_rule(into: &mut TextWriter, rules: &[Rule], rule: RuleId) -> Result<(), NoMemory>
    requires { rule.0 < length rules.now }
    ensures { OnOk result (into.new ≡ writes_all into.old (ruled_pieces rules.now rule.0)) }
{
    into.word("item")?;
    into.word("rule")?;
    write_rule_name(into, rules, rule)?;
    into.symbol(";")
}

/// Writes a copied row.
#[tactic(auto, using(text_write::proofs::Writings::writes_append))]
fn write_copied(
    into: &mut TextWriter,
    spec: &Specification,
    copy: CopyId,
    target: RowId,
) -> Result<(), NoMemory>
    requires { IsMapped spec.now copy.0 target }
    ensures { OnOk result (into.new ≡ writes_all into.old (copied_pieces spec.now copy.0 target)) }
{
    into.word("item")?;
    into.word("copy")?;
    write_copy_name(into, spec.copies(), copy)?;
    into.symbol(":")?;
    write_mapping(into, spec, copy, target)?;
    into.symbol(";")
}
