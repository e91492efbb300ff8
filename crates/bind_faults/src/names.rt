ghost use Rattle.std.specs.Prelude.{◌≡◌, ◌<◌, length, Ok, IfOk, position};
ghost use Rattle.std.specs.Str.{bytes_eq};
ghost use Rattle.bind_faults.specs.Faults.{refused_at, found_or};

use crate::BindFault;
use currency_base::ErrorCode;
use name_index::NameIndex;
use text_grammar::Named;

/// The place of a name, or its refusal with this code.
pub fn find(names: &NameIndex, named: &Named, code: ErrorCode) -> Result<usize, BindFault>
    ensures value { result ≡ found_or (position (bytes_eq named.now.name) names.now) (refused_at code named.now) Ok }
    ensures within { IfOk result (λ place. place < length names.now) }
{
    match names.find(&named.name) {
        Some(place) => Ok(place),
        None => Err(BindFault::at(code, named)),
    }
}
