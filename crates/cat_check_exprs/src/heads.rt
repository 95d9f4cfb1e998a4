// What definitions are but for their conditions and consequences.
ghost use Rattle.std.specs.Prelude.{◌≡◌, IfOk};
ghost use Rattle.cat_names.specs.Definitions as words;
ghost use Rattle.cat_check_exprs.specs.Aimed.{aim_lent};
ghost use Rattle.cat_check_exprs.specs.inside.Heads.{defined, head_of};

use crate::Aim;
use cat_pos::{Pos, Shared};
use cat_scope::{Def, Except, Expr, Label};
use cat_tree::{Exception, Lead, SurfaceLabel as Written};
use cat_value::Target;
use std::alloc::{AllocError, Global};

/// All of a definition but its condition and its consequence.
pub struct Head {
    target: Target,
    label: Option<Label>,
    except: Except,
    params: u32,
    pos: Pos,
}

impl Drop for Head {
    fn drop(self) {
        let Head {
            target: _,
            label: _,
            except: _,
            params: _,
            pos: _,
        } = self;
    }
}

impl Head {
    /// What stands in front of a definition or a rule of that position, and what it is for.
    pub fn of(alloc: Global, lead: &Lead, place: Pos, aim: &Aim) -> Result<Head, AllocError>
        ensures { IfOk result (λ head. head ≡ head_of lead.now place (aim_lent aim.now)) }
    {
        let Ok(params) = u32::try_from(aim.params.len()) else {
            return Err(AllocError);
        };
        let label = label(alloc, &lead.label)?;
        let except = except(alloc, &lead.exception)?;
        Ok(Head {
            target: aim.target,
            label,
            except,
            params,
            pos: place,
        })
    }

    pub fn define(
        self,
        alloc: Global,
        condition: Option<Shared<Expr>>,
        consequence: Expr,
    ) -> Result<Def, AllocError>
        ensures { IfOk result (λ def. def ≡ defined self condition consequence) }
    {
        let consequence = Shared::new(alloc, consequence)?;
        let Head {
            target,
            label,
            except,
            params,
            pos,
        } = self;
        Ok(Def {
            target,
            label,
            except,
            condition,
            consequence,
            params,
            pos,
        })
    }
}

/// A label, where there is one.
fn label(alloc: Global, written: &Option<Written>) -> Result<Option<Label>, AllocError>
    ensures { IfOk result (λ label. label ≡ words.label_of written.now) }
{
    match written {
        None => Ok(None),
        Some(label) => {
            let text = label.name.text.copy()?;
            Ok(Some(Label {
                text,
                pos: label.name.pos,
            }))
        }
    }
}

/// What a definition is an exception to.
fn except(alloc: Global, exception: &Exception) -> Result<Except, AllocError>
    ensures { IfOk result (λ except. except ≡ words.except_of exception.now) }
{
    match exception {
        Exception::No => Ok(Except::No),
        Exception::OnlyRoot(place) => Ok(Except::OnlyRoot(*place)),
        Exception::Labelled(place, label) => {
            let text = label.text.copy()?;
            Ok(Except::Named(
                *place,
                Label {
                    text,
                    pos: label.pos,
                },
            ))
        }
    }
}
