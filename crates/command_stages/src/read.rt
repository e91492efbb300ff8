ghost use Rattle.std.specs.Prelude.{◌≡◌, ◌≢◌, ℕ, List, ◌≤◌, ◌<◌, IfOk, IfSome, IfErr, length, vec_len};
ghost use Rattle.currency_edge.specs.Fault.{Rose};
ghost use Rattle.currency_edge.specs.Shelf.{document};
ghost use Rattle.command_stages.specs.Named.{IsDeterminedTrouble, IsDetermined, IsReadFault, IsReadFaultOf, IsUnread};

use crate::Trouble;
use currency_base::Name;
use currency_edge::{Shelf, ShelfFault};
use std::alloc::Global;

/// How many bytes the text of a specification or a question may have: 16 MiB.
pub const TEXT_BOUND: usize = 16_777_216;

// The trouble that names a document which could not be read.
fn read_fault(alloc: Global, name: &str) -> Trouble
    ensures outside { IsDeterminedTrouble result → ⊥ }
    ensures named { (n : List ℕ) → IsUnread result n → n ≡ name.now }
    ensures not_words { result ≢ Trouble.Words }
{
    match Name::from_bytes(alloc, name.as_bytes()) {
        Ok(name) => Trouble::ReadFault(name),
        Err(_) => Trouble::NoMemory,
    }
}

/// The bytes of a document of at most so many bytes.
pub fn read_bytes<S: Shelf>(
    alloc: Global,
    shelf: &mut S,
    name: &str,
    at_most: usize,
) -> Result<Vec<u8>, Trouble>
    ensures kept { S.texts shelf.new ≡ S.texts shelf.old }
    ensures later { S.faults shelf.old ≤ S.faults shelf.new }
    ensures whole { IfOk result (λ bytes. IfSome (S.texts shelf.old) (λ told. bytes.items ≡ document told name.now)) }
    ensures within { IfOk result (λ bytes. vec_len bytes ≤ at_most) }
    ensures long { IfErr result (λ e. IsDeterminedTrouble e → (e ≡ Trouble.Limit 1)) }
    ensures longer { IfErr result (λ e. IsDeterminedTrouble e → IfSome (S.texts shelf.old)
        (λ told. at_most < length (document told name.now))) }
    ensures read_fault { IsReadFault result → Rose (S.faults shelf.old) (S.faults shelf.new) }
    ensures named { (n : List ℕ) → IsReadFaultOf result n → n ≡ name.now }
    ensures not_words { IfErr result (λ e. e ≢ Trouble.Words) }
{
    let mut bytes = Vec::new(alloc);
    match shelf.read(alloc, name, at_most, &mut bytes) {
        Ok(()) => Ok(bytes),
        Err(ShelfFault::Failed) => Err(read_fault(alloc, name)),
        Err(ShelfFault::TooLong) => Err(Trouble::Limit(1)),
        Err(ShelfFault::NoMemory) => Err(Trouble::NoMemory),
    }
}
