ghost use Rattle.std.specs.Prelude.{◌≡◌, Some, None, IfOk, IfErr};
ghost use Rattle.port_signal.specs.Name.{name_fault};
ghost use Rattle.port_signal.specs.ReasonFault.{place_of};

use crate::{Reason, ReasonFault};

/// The name that a text spells.
pub fn reason(text: &str) -> Result<Reason, ReasonFault>
    ensures ok { IfOk result (λ r. r ≡ text.now) }
    ensures name { IfOk result (λ _. name_fault text.now ≡ None) }
    ensures fault { IfErr result (λ f. name_fault text.now ≡ Some (place_of f)) }
{
    Reason::of_bytes(text.as_bytes())
}
