//! Completions of the whole that say of parts what completions of these say.

ghost use Rattle.std.specs.Prelude.{◌<◌, All, OnOk, length};
ghost use Rattle.decided_facts.specs.Steps.{IsSite};
ghost use Rattle.spec_model.specs.Consistent.{IsConsistent};

use crate::site::Site;
use currency_base::NoMemory;
use part_join::{completions_fit, joined, put};
use part_laws::parts_join;
use spec_model::Completion;
use std::alloc::Global;

/// Puts a consistent completion of a part into the completion of a place; where there is none, a copy of the first one with it
/// is listed.
pub(crate) fn put_model(
    alloc: Global,
    site: &Site<'_>,
    narrow: &Completion,
    place: usize,
    completions: &mut Vec<Completion>,
) -> Result<(), NoMemory>
    requires site { IsSite site.now.task.now.spec.now site.now.places.now site.now.part.now }
    requires narrow { IsConsistent site.now.part.now narrow.now }
    requires consistent { All (IsConsistent site.now.task.now.spec.now) completions.old.items }
    requires some { 0 < length completions.old.items }
    ensures consistent { OnOk result (All (IsConsistent site.now.task.now.spec.now) completions.new.items) }
    ensures some { OnOk result (0 < length completions.new.items) }
{
    completions_fit();
    parts_join();
    if place < completions.len() {
        put_into(alloc, site, narrow, &mut completions[place])?;
        return Ok(());
    }
    let wide = joined(alloc, site.task.spec, site.places, &completions[0], narrow)?;
    completions.push(wide)?;
    Ok(())
}

/// Puts a consistent completion of a part into one of the whole.
fn put_into(
    alloc: Global,
    site: &Site<'_>,
    narrow: &Completion,
    completion: &mut Completion,
) -> Result<(), NoMemory>
    requires site { IsSite site.now.task.now.spec.now site.now.places.now site.now.part.now }
    requires narrow { IsConsistent site.now.part.now narrow.now }
    requires consistent { IsConsistent site.now.task.now.spec.now completion.old }
    ensures { OnOk result (IsConsistent site.now.task.now.spec.now completion.new) }
{
    completions_fit();
    parts_join();
    put(alloc, site.task.spec, site.places, narrow, completion)?;
    Ok(())
}
