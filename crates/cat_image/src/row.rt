// A line of a listing behind its first one.
use crate::{ImageCase, ImageConstant, ImageField, ImageItem, ImagePos, ImageTarget};
use cat_code::Instr;
use cat_pos::Text;

/// What a line says. A field, a case and an item belong to the last structure, enumeration or scope in front of them.
#[derive(Drop)]
pub enum Row {
    File(Text),
    Structure(Text),
    Field(ImageField),
    Enumeration(Text),
    Case(ImageCase),
    Scope(Text, u32),
    Item(ImageItem),
    Target(ImageTarget),
    Definition(ImagePos),
    Function(u32),
    Position(ImagePos),
    Constant(ImageConstant),
    Instruction(u32, Instr),
}
