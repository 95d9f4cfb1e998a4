// The instructions of the machine.
use cat_pos::List;

/// An instruction takes 16 bytes. A jump names an instruction's number. All other numbers are those of entries of the
/// tables, or of slots, locals, fields and items, but those that say how many values are taken.
#[derive(Clone, Copy, Debug)]
pub enum Instr {
    Const(u32),
    Slot(u32),
    Local(u32),
    Store(u32),
    Bind,
    Drop(u32),
    /// A slot, and where to go if it is filled.
    Given(u32, u32),
    Jump(u32),
    JumpFalse(u32),
    /// The number of an operator, that of a rounding, and the position of its fault.
    Op(u32, u32, u32),
    Pack(u32),
    List(u32),
    Field(u32),
    Tag(u32),
    TagNone(u32),
    IsCase(u32),
    Content,
    Length,
    Iter,
    /// A constant, whose type is that of the list that is collected.
    IterList(u32),
    Next(u32),
    Collect,
    Leave,
    /// A function, and how many arguments it takes.
    Call(u32, u32),
    Scope(u32),
    Pass(u32),
    Enter,
    Return,
    Begin(u32),
    Hold(u32),
    Merge,
    Check(u32),
    Held(u32),
    Take(u32),
    NoValue(u32),
    Assert(u32),
}

pub type Instrs = List<Instr>;
