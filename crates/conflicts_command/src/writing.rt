ghost use Rattle.std.specs.Prelude.{◌≡◌, ◌++◌, All, Contains, OnOk, codes};
ghost use Rattle.item_write.specs.Pieces.{head_pieces, items_pieces};
ghost use Rattle.log_write.specs.Pieces.{many_pieces};
ghost use Rattle.minimal_items.specs.Explanations.{needed_items};
ghost use Rattle.spec_items.specs.Items.{items_of};
ghost use Rattle.text_write.specs.Spacing.{writes_all};
ghost use Rattle.conflicts_command.specs.Listed.{AreListedIn, IsListed};
ghost use Rattle.conflicts_command.specs.Text.{conflict_pieces, conflicts_pieces, entity_line, entity_lines};
ghost use Rattle.conflicts_command.specs.Text.{relation_lines};

use currency_base::{Name, NoMemory};
use item_write::{write_head, write_item, write_items};
use itoa::Buffer;
use minimal_items::Needed;
use part_conflicts::Conflict;
use spec_items::Item;
use spec_model::{Relation, Specification};
use text_write::TextWriter;

/// Writes how many parts are inconsistent, and each with what explains that it is.
#[tactic(auto, using(text_write::proofs::Writings::writes_append))]
pub(crate) fn write_conflicts(into: &mut TextWriter, found: &[Conflict]) -> Result<(), NoMemory>
    requires { All IsListed found.now }
    ensures { OnOk result (into.new ≡ writes_all into.old (conflicts_pieces found.now)) }
{
    let mut buffer = Buffer::new();
    write_head(into, "conflicts")?;
    into.word("conflicts")?;
    into.word(buffer.format(found.len()))?;
    into.symbol(";")?;
    write_each(into, found)?;
    into.word("end")?;
    into.symbol(";")
}

/// Writes the head of the text, the entities of a part, and items of it.
#[tactic(auto, using(text_write::proofs::Writings::writes_append))]
pub(crate) fn write_front(
    into: &mut TextWriter,
    part: &Specification,
    items: &[Item],
) -> Result<(), NoMemory>
    requires { All (Contains (items_of part.now)) items.now }
    ensures { OnOk result (into.new ≡ writes_all into.old (head_pieces (codes "conflicts") ++ entity_lines part.now
        ++ items_pieces part.now items.now)) }
{
    write_head(into, "conflicts")?;
    write_entities(into, part)?;
    write_items(into, part, items)
}

// Writes inconsistent parts, one after another.
fn write_each(into: &mut TextWriter, found: &[Conflict]) -> Result<(), NoMemory>
    requires { All IsListed found.now }
    ensures { OnOk result (into.new ≡ writes_all into.old (many_pieces conflict_pieces found.now)) }
{
    for conflict in found {
        write_conflict(into, conflict)?;
    }
    Ok(())
}

// Writes the entities of an inconsistent part, and the items that explain that it is.
#[tactic(auto, using(text_write::proofs::Writings::writes_append))]
fn write_conflict(into: &mut TextWriter, conflict: &Conflict) -> Result<(), NoMemory>
    requires { IsListed conflict.now }
    ensures { OnOk result (into.new ≡ writes_all into.old (conflict_pieces conflict.now)) }
{
    write_entities(into, &conflict.part)?;
    write_needed(into, &conflict.part, conflict.needed.as_slice())
}

// Writes needed items.
fn write_needed(
    into: &mut TextWriter,
    part: &Specification,
    needed: &[Needed],
) -> Result<(), NoMemory>
    requires { AreListedIn part.now needed.now }
    ensures { OnOk result (into.new ≡ writes_all into.old (items_pieces part.now (needed_items needed.now))) }
{
    for one in needed {
        write_item(into, part, one.item)?;
    }
    Ok(())
}

// Writes a line for each entity of a part.
fn write_entities(into: &mut TextWriter, part: &Specification) -> Result<(), NoMemory>
    ensures { OnOk result (into.new ≡ writes_all into.old (entity_lines part.now)) }
{
    write_relations(into, part.relations())
}

// Writes a line for each entity of relations.
fn write_relations(into: &mut TextWriter, relations: &[Relation]) -> Result<(), NoMemory>
    ensures { OnOk result (into.new ≡ writes_all into.old (many_pieces relation_lines relations.now)) }
{
    for relation in relations {
        write_names(into, &relation.name, relation.entities.as_slice())?;
    }
    Ok(())
}

// Writes a line for each of these entities of a relation.
fn write_names(into: &mut TextWriter, relation: &Name, entities: &[Name]) -> Result<(), NoMemory>
    ensures { OnOk result (into.new ≡ writes_all into.old (many_pieces (entity_line relation.now) entities.now)) }
{
    for entity in entities {
        write_entity(into, relation, entity)?;
    }
    Ok(())
}

// Writes a line for an entity of a relation.
#[tactic(auto, using(text_write::proofs::Writings::writes_append))]
fn write_entity(into: &mut TextWriter, relation: &Name, entity: &Name) -> Result<(), NoMemory>
    ensures { OnOk result (into.new ≡ writes_all into.old (entity_line relation.now entity.now)) }
{
    into.word("conflict")?;
    into.name(entity)?;
    into.word("of")?;
    into.name(relation)?;
    into.symbol(";")
}
