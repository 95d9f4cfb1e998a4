//! The enumerations that inputs are read by.
ghost use Rattle.std.specs.Prelude.{◌≡◌, [], ◌∷◌, ◌++◌, IfOk, OnOk};
ghost use Rattle.cat_rows_data.specs.Declarations as declared;

use crate::structures::list;
use cat_pos::{List, Text};
use cat_value::{Case, Cases, Enumeration, Enumerations, Ty};
use std::alloc::{AllocError, Global};

pub fn enumerations(alloc: Global, plain: &str, amount: &str) -> Result<Enumerations, AllocError>
    ensures { IfOk result (λ enumerations. enumerations ≡ declared.enumerations plain.now amount.now) }
{
    let mut enumerations = List::new(alloc);
    enumerations.push(choice(alloc)?)?;
    enumerations.push(letter(alloc, plain, amount)?)?;
    enumerations.push(tax_credit(alloc)?)?;
    Ok(enumerations)
}

fn choice(alloc: Global) -> Result<Enumeration, AllocError>
    ensures { IfOk result (λ enumeration. enumeration ≡ declared.choice) }
{
    let name = Text::from_str(alloc, "Choice")?;
    let many = list(alloc, Ty::Integer)?;
    let mut cases = List::new(alloc);
    add_case(alloc, &mut cases, "Nothing", None)?;
    add_case(alloc, &mut cases, "Many", Some(many))?;
    add_case(alloc, &mut cases, "One", Some(Ty::Structure(0)))?;
    Ok(Enumeration { name, cases })
}

fn letter(alloc: Global, plain: &str, amount: &str) -> Result<Enumeration, AllocError>
    ensures { IfOk result (λ enumeration. enumeration ≡ declared.letter plain.now amount.now) }
{
    let name = Text::from_str(alloc, "Letter")?;
    let mut cases = List::new(alloc);
    add_case(alloc, &mut cases, plain, None)?;
    add_case(alloc, &mut cases, amount, Some(Ty::Money))?;
    add_case(alloc, &mut cases, "Of", Some(Ty::Enumeration(0)))?;
    Ok(Enumeration { name, cases })
}

fn tax_credit(alloc: Global) -> Result<Enumeration, AllocError>
    ensures { IfOk result (λ enumeration. enumeration ≡ declared.tax_credit) }
{
    let name = Text::from_str(alloc, "TaxCredit")?;
    let mut cases = List::new(alloc);
    add_case(alloc, &mut cases, "NoTaxCredit", None)?;
    add_case(alloc, &mut cases, "ChildrenTaxCredit", Some(Ty::Integer))?;
    Ok(Enumeration { name, cases })
}

fn add_case(
    alloc: Global,
    cases: &mut Cases,
    name: &str,
    content: Option<Ty>,
) -> Result<(), AllocError>
    ensures { OnOk result (cases.new ≡ cases.old ++ declared.case name.now content ∷ []) }
{
    let name = Text::from_str(alloc, name)?;
    cases.push(Case { name, content })
}
