ghost use Rattle.std.specs.Prelude.{◌≡◌, ◌≢◌, ℕ, List, IfErr, ◌≤◌, IfOk, IfSome};
ghost use Rattle.currency_edge.specs.Fault.{Rose};
ghost use Rattle.bound_spec.specs.Growth.{IsWithinLimits};
ghost use Rattle.command_stages.specs.Documents.{IsSpecDocumentDue};
ghost use Rattle.forced_command.specs.Forced.{IsForcedDue, IsForcedPrinted, AreForcedPrinted};
ghost use Rattle.command_stages.specs.Named.{IsDetermined, IsReadFault, IsReadFaultOf};

use command_stages::{Done, Ending, Trouble, read_specification};
use currency_edge::Shelf;
use forced_closure::close;
use forced_write::write_forced;
use spec_model::Specification;
use std::alloc::Global;

// The job of `forced`: the forced pairs, as a text.
fn printed_forced(alloc: Global, spec: &Specification) -> Result<Done, Trouble>
    requires within { IsWithinLimits spec.now }
    ensures job { IsDetermined result → IsForcedPrinted spec.now result }
    ensures inside { IsReadFault result → ⊥ }
    ensures not_words { IfErr result (λ e. e ≢ Trouble.Words) }
{
    let Ok(closure) = close(alloc, spec) else {
        return Err(Trouble::NoMemory);
    };
    match write_forced(alloc, spec, &closure) {
        Ok(text) => Ok(Done {
            text,
            ending: Ending::Printed,
        }),
        Err(_) => Err(Trouble::NoMemory),
    }
}

/// All stages of `forced`.
pub fn forced_document<S: Shelf>(alloc: Global, shelf: &mut S, name: &str) -> Result<Done, Trouble>
    ensures later { S.faults shelf.old ≤ S.faults shelf.new }
    ensures due { IsDetermined result → IfSome (S.texts shelf.old) (λ told. IsForcedDue told name.now result) }
    ensures printed { IfOk result (λ done. IfSome (S.texts shelf.old) (λ told. AreForcedPrinted told name.now done)) }
    ensures read_fault { IsReadFault result → Rose (S.faults shelf.old) (S.faults shelf.new) }
    ensures unread { (n : List ℕ) → IsReadFaultOf result n
        → IfSome (S.texts shelf.old) (λ told. IsSpecDocumentDue told name.now n) }
    ensures not_words { IfErr result (λ e. e ≢ Trouble.Words) }
{
    match read_specification(alloc, shelf, name) {
        Ok(spec) => printed_forced(alloc, &spec),
        Err(trouble) => Err(trouble),
    }
}
