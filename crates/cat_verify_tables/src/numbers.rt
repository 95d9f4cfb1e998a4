// Numbers, where they fit.
ghost use Rattle.std.specs.Prelude.{◌≡◌, ◌+◌, IfOk};

use std::alloc::AllocError;

/// A number of an entry.
pub(crate) fn fitting(number: usize) -> Result<u32, AllocError>
    ensures { IfOk result (λ fits. fits ≡ number) }
{
    let Ok(fits) = u32::try_from(number) else {
        return Err(AllocError);
    };
    Ok(fits)
}

/// The line so many behind another one.
pub(crate) fn behind(line: usize, count: usize) -> Result<usize, AllocError>
    ensures { IfOk result (λ behind. behind ≡ line + count) }
{
    let Some(behind) = line.checked_add(count) else {
        return Err(AllocError);
    };
    Ok(behind)
}

/// The line behind those of an entry, which has one line, and one for each of so many parts.
pub(crate) fn past(line: usize, parts: usize) -> Result<usize, AllocError>
    ensures { IfOk result (λ past. past ≡ line + 1 + parts) }
{
    let first = behind(line, 1)?;
    behind(first, parts)
}
