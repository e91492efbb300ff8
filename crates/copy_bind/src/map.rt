// Mappings put into a copy function, one after another.

ghost use Rattle.std.specs.Prelude.{◌≡◌, ◌⊎◌, All, IfOk, Ok, OnOk, option_map};
ghost use Rattle.bind_faults.specs.Faults.{IsDue, unless};
ghost use Rattle.copy_functions.specs.Copies.{IsCopied, with_source};
ghost use Rattle.spec_model.specs.Facts.{IsPlaceBetween};
ghost use Rattle.copy_bind.specs.Copied.{fault_of, refusal_of, with_mappings};
ghost use Rattle.copy_bind.specs.Steps.{IsWithin, KeepsHead};

use crate::mapping::Mapping;
use crate::side::CopySide;
use bind_faults::{BindFault, Refusal};
use copy_functions::{CopyFault, CopyMap};
use currency_base::{ErrorCode, Name, NoMemory};
use std::alloc::Global;

/// The name of a document, copied.
fn name_of(alloc: Global, document: Option<&Name>) -> Result<Option<Name>, NoMemory>
    ensures { IfOk result (λ copy. copy ≡ option_map (λ n. n.now) document.entry) }
{
    match document {
        None => Ok(None),
        Some(name) => Ok(Some(name.duplicate(alloc)?)),
    }
}

/// What a mapping that is refused is refused for, at its line.
fn refusal_of(alloc: Global, document: Option<&Name>, line: u32, fault: CopyFault) -> BindFault
    ensures { (result ≡ BindFault.NoMemory) ⊎ (result ≡ refusal_of (option_map (λ n. n.now) document.entry) line fault) }
{
    let Ok(document) = name_of(alloc, document) else {
        return BindFault::NoMemory;
    };
    match fault {
        CopyFault::CopyTwice => BindFault::Refused(Refusal {
            code: ErrorCode::CopyTwice,
            document,
            line,
        }),
        CopyFault::CopyDiffers { target, source, .. } => BindFault::CopyDiffers {
            document,
            line,
            target,
            source,
        },
        CopyFault::NoMemory => BindFault::NoMemory,
    }
}

/// Adds a mapping to a copy function, or answers why it is refused.
fn add(
    alloc: Global,
    document: Option<&Name>,
    target: &CopySide,
    source: &CopySide,
    copy: &mut CopyMap,
    mapping: &Mapping,
) -> Result<(), BindFault>
    requires places { All (IsPlaceBetween target.now.relation source.now.relation) copy.old.places }
    requires within { IsWithin target.now.relation source.now.relation mapping.now }
    ensures due { IsDue (unless (fault_of (option_map (λ n. n.now) document.entry) target.now.relation.rows
        source.now.relation.rows copy.old mapping.now) (Ok tt)) result }
    ensures ok { OnOk result (copy.new ≡ with_source copy.old mapping.now.target mapping.now.source) }
    ensures copied { IsCopied copy.old target.now.relation.rows source.now.relation.rows
        → OnOk result (IsCopied copy.new target.now.relation.rows source.now.relation.rows) }
{
    let targets = &target.relation().rows;
    let sources = &source.relation().rows;
    match copy.add(alloc, targets, sources, mapping.target, mapping.source) {
        Ok(()) => Ok(()),
        Err(fault) => Err(refusal_of(alloc, document, mapping.line, fault)),
    }
}

/// The copy function with these mappings, or why the first that is refused is.
pub fn with_mappings(
    alloc: Global,
    document: Option<&Name>,
    target: &CopySide,
    source: &CopySide,
    copy: CopyMap,
    mappings: &[Mapping],
) -> Result<CopyMap, BindFault>
    requires places { All (IsPlaceBetween target.now.relation source.now.relation) copy.places }
    requires within { All (IsWithin target.now.relation source.now.relation) mappings.now }
    requires copied { IsCopied copy target.now.relation.rows source.now.relation.rows }
    ensures due { IsDue (with_mappings (option_map (λ n. n.now) document.entry) target.now.relation.rows
        source.now.relation.rows copy mappings.now) result }
    ensures keeps { IfOk result (KeepsHead copy) }
    ensures copied { IfOk result (λ made. IsCopied made target.now.relation.rows source.now.relation.rows) }
{
    let mut copy = copy;
    for mapping in mappings {
        match add(alloc, document, target, source, &mut copy, mapping) {
            Ok(()) => {}
            Err(fault) => return Err(fault),
        }
    }
    Ok(copy)
}
