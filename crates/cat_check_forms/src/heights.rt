// Types that are no higher than types may be.
ghost use Rattle.std.specs.Prelude.{◌≡◌, Ok};
ghost use Rattle.cat_value.specs.declared.ty.Ty.TheViews as types;
ghost use Rattle.cat_scope.specs.Fitting.{is_low_type};
ghost use Rattle.cat_names.specs.declared.fault.Fault.TheVariants as faults;
ghost use Rattle.cat_names.specs.Found.{Tells, where_true};
ghost use Rattle.cat_check_forms.specs.Tabled.{IsTabled, names_at};

use crate::Here;
use cat_names::{Fault, Refusal};
use cat_pos::{Boxed, Pos};
use cat_value::{HIGHEST, Ty, copy_ty};

/// The type of lists of elements of that type, unless it is higher than types may be.
pub fn list_type(here: &Here, place: Pos, element: &Ty) -> Result<Ty, Refusal>
    requires { IsTabled here.now }
    ensures { Tells result (where_true (is_low_type (names_at here.now).decls (types.List element.now))
        (faults.TooMany place) (Ok (types.List element.now))) }
{
    if !is_list_low(here, element) {
        return Err(Refusal::Refused(Fault::TooMany(place)));
    }
    let element = copy_ty(here.alloc, element)?;
    Ok(Ty::List(Boxed::new(here.alloc, element)?))
}

/// Whether a list of elements of that type is no higher than types may be.
fn is_list_low(here: &Here, element: &Ty) -> bool
    requires { IsTabled here.now }
    ensures { result ≡ is_low_type here.now.decls.now (types.List element.now) }
{
    let decls = here.decls;
    let height = here
        .heights
        .height(&decls.structures, &decls.enumerations, element);
    height < HIGHEST
}
