// Where an instruction leads from a shape.
ghost use Rattle.std.specs.Prelude.{◌≡◌, ◌<◌, ◌+◌, ◌^◌, IsTrue, map};
ghost use Rattle.std.specs.List.{list_all};
ghost use Rattle.cat_code.specs.Flow.{flow};
ghost use Rattle.cat_code.specs.Valid.{constant_is_sound};
ghost use Rattle.cat_code.specs.Places.{function_places};
ghost use Rattle.cat_verify_tables.specs.TableWords.{numbered};
ghost use Rattle.cat_verify_shapes.specs.inside.Told.{Tells};

use crate::forms::Forms;
use crate::leads::{Leads, Stuck};
use crate::shape::Shape;
use crate::{calling, defaults, looping, making, operating, values};
use cat_code::{Instr, Tables};
use cat_verify_tables::FunctionPlace;

/// Where an instruction of the code leads.
pub(crate) fn step(
    tables: &Tables,
    functions: &[FunctionPlace],
    code: &[Instr],
    forms: &Forms,
    place: usize,
    shape: Shape,
    instr: Instr,
) -> Result<Leads, Stuck>
    requires functions { functions.now ≡ map numbered (function_places tables.now.decls) }
    requires constants { IsTrue (list_all (constant_is_sound tables.now.decls) tables.now.constants) }
    requires within { place + 1 < 2 ^ 64 }
    ensures { Tells tables.now forms.now result (flow tables.now code.now instr place) shape }
{
    match instr {
        Instr::Const(constant) => values::constant(tables, forms, place, shape, constant),
        Instr::Slot(slot) => values::slot(tables, forms, place, shape, slot),
        Instr::Local(local) => values::local(tables, forms, place, shape, local),
        Instr::Store(slot) => values::store(tables, forms, place, shape, slot),
        Instr::Bind => values::bind(tables, forms, place, shape),
        Instr::Drop(count) => values::unbind(tables, forms, place, shape, count),
        Instr::Given(slot, other) => values::given(tables, forms, place, shape, slot, other),
        Instr::Jump(other) => Ok(Leads::One(other as usize, shape)),
        Instr::JumpFalse(other) => values::jump_false(tables, forms, place, shape, other),
        Instr::Op(operator, rounding, position) => {
            operating::operate(tables, forms, place, shape, operator, rounding, position)
        }
        Instr::Pack(count) => making::pack(tables, forms, place, shape, count),
        Instr::List(count) => making::list(tables, forms, place, shape, count),
        Instr::Field(field) => making::field(tables, forms, place, shape, field),
        Instr::Tag(case) => making::tag(tables, forms, place, shape, case),
        Instr::TagNone(case) => making::tag_none(tables, forms, place, shape, case),
        Instr::IsCase(case) => making::is_case(tables, forms, place, shape, case),
        Instr::Content => making::content(tables, code, forms, place, shape),
        Instr::Length => looping::length(tables, forms, place, shape),
        Instr::Iter => looping::iter(tables, forms, place, shape),
        Instr::IterList(constant) => looping::iter_list(tables, forms, place, shape, constant),
        Instr::Next(other) => looping::next(tables, forms, place, shape, other),
        Instr::Collect => looping::collect(tables, forms, place, shape),
        Instr::Leave => looping::leave(tables, forms, place, shape),
        Instr::Call(function, count) => {
            calling::call(tables, functions, forms, place, shape, function, count)
        }
        Instr::Scope(scope) => calling::scope(tables, forms, place, shape, scope),
        Instr::Pass(slot) => calling::pass(tables, forms, place, shape, slot),
        Instr::Enter => calling::enter(tables, forms, place, shape),
        Instr::Return => calling::leave(tables, functions, forms, place, shape),
        Instr::Begin(target) => defaults::begin(tables, forms, place, shape, target),
        Instr::Hold(definition) => defaults::hold(tables, forms, place, shape, definition),
        Instr::Merge => defaults::merge(tables, forms, place, shape),
        Instr::Check(target) => defaults::check(tables, forms, place, shape, target),
        Instr::Held(other) => defaults::held(tables, forms, place, shape, other),
        Instr::Take(other) => defaults::take(tables, forms, place, shape, other),
        Instr::NoValue(target) => defaults::no_value(tables, forms, place, shape, target),
        Instr::Assert(position) => values::assert(tables, forms, place, shape, position),
    }
}
