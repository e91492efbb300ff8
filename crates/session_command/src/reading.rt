// The script.

ghost use Rattle.std.specs.Prelude.{◌≡◌, ◌≢◌, ◌≤◌, ℕ, List, IfErr, IfSome};
ghost use Rattle.command_stages.specs.Named.{IsDetermined, IsReadFault, IsReadFaultOf};
ghost use Rattle.currency_edge.specs.Fault.{Rose};
ghost use Rattle.session_command.specs.Sessions.{IsScriptRead, IsScriptSaid};

use command_stages::{Trouble, of_text, read_bytes};
use currency_edge::Shelf;
use script_syntax::{EntryList, read_script};
use std::alloc::Global;

// How many bytes the text of a script may have: 16 MiB.
const TEXT_BOUND: usize = 16_777_216;

/// The entries of the script of this name.
pub(crate) fn read_entries<S: Shelf>(
    alloc: Global,
    shelf: &mut S,
    name: &str,
) -> Result<EntryList, Trouble>
    ensures kept { S.texts shelf.new ≡ S.texts shelf.old }
    ensures later { S.faults shelf.old ≤ S.faults shelf.new }
    ensures read { IsDetermined result → IfSome (S.texts shelf.old) (λ told. IsScriptRead told name.now result) }
    ensures read_fault { IsReadFault result → Rose (S.faults shelf.old) (S.faults shelf.new) }
    ensures unread { (n : List ℕ) → IsReadFaultOf result n → n ≡ name.now }
    ensures not_words { IfErr result (λ e. e ≢ Trouble.Words) }
{
    match read_bytes(alloc, shelf, name, TEXT_BOUND) {
        Ok(bytes) => entries_said(alloc, name, &bytes),
        Err(trouble) => Err(trouble),
    }
}

// The entries that a script's text says.
fn entries_said(alloc: Global, name: &str, bytes: &[u8]) -> Result<EntryList, Trouble>
    ensures said { IsDetermined result → IsScriptSaid name.now bytes.now result }
    ensures inside { IsReadFault result → ⊥ }
    ensures not_words { IfErr result (λ e. e ≢ Trouble.Words) }
{
    match read_script(alloc, bytes) {
        Ok(entries) => Ok(entries),
        Err(fault) => Err(of_text(alloc, name, fault)),
    }
}
