ghost use Rattle.std.specs.Prelude.{◌≡◌, ◌<◌, ◌++◌, OnOk, Some, codes, length, slice_get};
ghost use Rattle.log_write.specs.Pieces.{word};
ghost use Rattle.report_write.specs.Named.{IsRowOf};
ghost use Rattle.report_write.specs.Pieces.{row_pieces};
ghost use Rattle.text_write.specs.Spacing.{writes_all};
ghost use Rattle.item_write.specs.Pieces.{copy_pieces, mapping_pieces, rule_pieces};
ghost use Rattle.item_write.specs.Placed.{IsMapped};

use currency_base::{CopyId, NoMemory, RowId, RuleId};
use report_write::write_row;
use spec_model::{CopyMap, Relation, Rule, Specification};
use text_write::TextWriter;

/// The rule of an id.
fn rule_at(rules: &[Rule], rule: RuleId) -> &Rule
    requires { rule.0 < length rules.now }
    ensures { slice_get rules.now rule.0 ≡ Some result.now }
{
    &rules[rule.0 as usize]
}

/// The copy function of an id.
fn copy_at(copies: &[CopyMap], copy: CopyId) -> &CopyMap
    requires { copy.0 < length copies.now }
    ensures { slice_get copies.now copy.0 ≡ Some result.now }
{
    &copies[copy.0 as usize]
}

/// Writes the name of a rule.
#[tactic(auto, using(crate::proofs::Naming::rule_named))]
pub(crate) fn write_rule_name(
    into: &mut TextWriter,
    rules: &[Rule],
    rule: RuleId,
) -> Result<(), NoMemory>
    requires { rule.0 < length rules.now }
    ensures { OnOk result (into.new ≡ writes_all into.old (rule_pieces rules.now rule.0)) }
{
    into.name(&rule_at(rules, rule).name)
}

/// Writes the name of a copy function.
#[tactic(auto, using(crate::proofs::Naming::copy_named))]
pub(crate) fn write_copy_name(
    into: &mut TextWriter,
    copies: &[CopyMap],
    copy: CopyId,
) -> Result<(), NoMemory>
    requires { copy.0 < length copies.now }
    ensures { OnOk result (into.new ≡ writes_all into.old (copy_pieces copies.now copy.0)) }
{
    into.name(copy_at(copies, copy).name())
}

/// Writes the row of a copy function's target relation, and the one that it is copied from.
pub(crate) fn write_mapping(
    into: &mut TextWriter,
    spec: &Specification,
    copy: CopyId,
    target: RowId,
) -> Result<(), NoMemory>
    requires { IsMapped spec.now copy.0 target }
    ensures { OnOk result (into.new ≡ writes_all into.old
        (mapping_pieces spec.now.relations (slice_get spec.now.copies copy.0) target)) }
{
    let map = copy_at(spec.copies(), copy);
    match map.source_of(target) {
        Some(source) => write_rows(into, spec.relations(), map, target, source),
        None => unreachable!(),
    }
}

/// Writes these rows of a copy function's relations.
#[tactic(auto, using(text_write::proofs::Writings::writes_append))]
fn write_rows(
    into: &mut TextWriter,
    relations: &[Relation],
    map: &CopyMap,
    target: RowId,
    source: RowId,
) -> Result<(), NoMemory>
    requires target { IsRowOf relations.now map.now.target.0 target.0 }
    requires source { IsRowOf relations.now map.now.source.0 source.0 }
    ensures { OnOk result (into.new ≡ writes_all into.old (row_pieces relations.now map.now.target.0 target
        ++ word (codes "from") ++ row_pieces relations.now map.now.source.0 source)) }
{
    write_row(into, relations, map.target(), target)?;
    into.word("from")?;
    write_row(into, relations, map.source(), source)
}
