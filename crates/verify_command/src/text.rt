ghost use Rattle.std.specs.Prelude.{◌≡◌, IfErr, IfOk};
ghost use Rattle.verify_command.specs.Judged.{accepted_done, accepted_text};

use command_stages::{Done, Ending, Trouble, bytes_of};
use currency_base::{ByteList, NoMemory};
use report_model::VerdictKind;
use std::alloc::Global;

// The line of a report that shows its verdict.
fn accepted_line(alloc: Global, kind: VerdictKind) -> Result<ByteList, NoMemory>
    ensures { IfOk result (λ text. text ≡ accepted_text kind) }
{
    let kind = kind.text();
    let text = format!(in alloc; "accepted {kind}\n")?;
    Ok(bytes_of(text))
}

/// What a report that shows a verdict of this kind comes to.
pub fn accepted(alloc: Global, kind: VerdictKind) -> Result<Done, Trouble>
    ensures printed { IfOk result (λ done. done ≡ accepted_done kind) }
    ensures memory { IfErr result (λ e. e ≡ Trouble.NoMemory) }
{
    match accepted_line(alloc, kind) {
        Ok(text) => Ok(Done {
            text,
            ending: Ending::Printed,
        }),
        Err(_) => Err(Trouble::NoMemory),
    }
}
