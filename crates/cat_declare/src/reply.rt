// Replies on whether faults stand.
ghost use Rattle.std.specs.Prelude.{◌≡◌};
ghost use Rattle.cat_declare.specs.inside.Clearing.{Clears};

use cat_check_names::Faults;
use cat_names::Refusal;

/// Refuses where there is a fault.
pub fn clear(faults: &Faults) -> Result<(), Refusal>
    ensures { Clears result faults.now }
{
    match faults.get(0) {
        Some(fault) => Err(Refusal::Refused(*fault)),
        None => Ok(()),
    }
}
