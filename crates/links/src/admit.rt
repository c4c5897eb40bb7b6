// Changes that a link takes.
ghost use Rattle.std.specs.Prelude.{◌≡◌};
ghost use Rattle.links.specs.Translations.{admitted};

use crate::refusal::CarryRefusal;
use kinds::change::Change;
use kinds::kind::Kind;

// The change in its plain form, where it is of the kind.
pub fn admit(kind: Kind, change: Change) -> Result<Change, CarryRefusal>
    ensures { result ≡ admitted kind change }
{
    if kind.takes(change) {
        Ok(change.plain())
    } else {
        Err(CarryRefusal::NotOfKind)
    }
}
