// Jumps: where they go, and that none goes back but to the beginning of a turn of a loop.
ghost use Rattle.std.specs.Prelude.{◌≡◌, slice_get, IfOk, IfErr};
ghost use Rattle.cat_code.specs.Jumps.{jump_of};
ghost use Rattle.cat_code.specs.Tame.{is_next, may_go_back, is_forward, AreForward};
ghost use Rattle.cat_verify.specs.inside.Jumping.{BackCause};

use crate::VerifyRefusal;
use cat_code::Instr;

/// The instruction to which one may jump.
pub(crate) fn jump_of(instr: Instr) -> Option<u32>
    ensures { result ≡ jump_of instr }
{
    match instr {
        Instr::Given(_, place)
        | Instr::Jump(place)
        | Instr::JumpFalse(place)
        | Instr::Next(place)
        | Instr::Held(place)
        | Instr::Take(place) => Some(place),
        _ => None,
    }
}

fn is_next(code: &[Instr], place: usize) -> bool
    ensures { result ≡ is_next (slice_get code.now place) }
{
    match code.get(place) {
        Some(Instr::Next(_)) => true,
        _ => false,
    }
}

fn may_go_back(code: &[Instr], instr: Instr) -> bool
    ensures { result ≡ may_go_back code.now instr }
{
    match instr {
        Instr::Jump(place) => is_next(code, place as usize),
        _ => false,
    }
}

fn is_forward(code: &[Instr], at: usize, instr: Instr) -> bool
    ensures { result ≡ is_forward code.now at instr (jump_of instr) }
{
    match jump_of(instr) {
        Some(place) => at < place as usize || may_go_back(code, instr),
        None => true,
    }
}

/// Refuses a jump that goes back, but to the beginning of a turn of a loop.
pub(crate) fn refuse_back(code: &[Instr]) -> Result<(), VerifyRefusal>
    ensures forward { IfOk result (λ _. AreForward code.now 0 code.now) }
    ensures cause { IfErr result (BackCause code.now) }
{
    for (at, &instr) in code.iter().enumerate() {
        if !is_forward(code, at, instr) {
            return Err(VerifyRefusal::Endless(at));
        }
    }
    Ok(())
}
