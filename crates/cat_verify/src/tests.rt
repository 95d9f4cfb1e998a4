//! Listings that are verified, and what stands first against others.
use crate::{VerifyRefusal, verify};
use cat_image::read_listing;
use std::alloc::Global;
use std::process::Abort;
use std::test::Fail;

/// The kind of what stands against a listing, and the number of its line or its instruction; zeros where it is
/// verified.
fn told(alloc: Global, listing: &[u8]) -> Option<(u32, usize)> {
    if listing.len() > 1000 {
        return None;
    }
    let Ok(image) = read_listing(alloc, listing) else {
        return None;
    };
    match verify(alloc, image) {
        Ok(_) => Some((0, 0)),
        Err(VerifyRefusal::BadTable(line)) => Some((1, line)),
        Err(VerifyRefusal::BadNumber(place)) => Some((2, place)),
        Err(VerifyRefusal::Endless(place)) => Some((3, place)),
        Err(VerifyRefusal::BadShape(place)) => Some((4, place)),
        Err(VerifyRefusal::Memory) => None,
    }
}

#[test]
fn the_first_kind_of_fault_is_told(rt: HostRuntime) -> Result<(), Fail> {
    let alloc = rt.alloc();
    assert!(rt;
        told(
            alloc,
            b"catala-code 1\nfile a.md\nscope S 0\n0 pack 0\n1 return\n"
        ) == Some((0, 0))
    );
    assert!(rt; told(alloc, b"catala-code 1\nfile a.md\nscope S 0\n0 jump 7\n") == Some((2, 0)));
    assert!(rt; told(alloc, b"catala-code 1\nfile a.md\nscope S 0\n0 jump 0\n") == Some((3, 0)));
    assert!(rt; told(alloc, b"catala-code 1\nfile a.md\nscope S 0\n0 length\n") == Some((4, 0)));
    assert!(rt; told(alloc, b"catala-code 1\nscope S 0\nscope S 7\n0 jump 0\n") == Some((1, 3)));
    Ok(())
}

#[test]
fn a_scope_that_calls_itself_has_no_end(rt: HostRuntime) -> Result<(), Fail> {
    let alloc = rt.alloc();
    assert!(rt;
        told(
            alloc,
            b"catala-code 1\nscope S 0\n0 scope 0\n1 enter\n2 return\n"
        ) == Some((3, 0))
    );
    Ok(())
}

#[test]
fn an_instruction_of_two_scopes_may_have_no_end(rt: HostRuntime) -> Result<(), Fail> {
    let alloc = rt.alloc();
    assert!(rt;
        told(
            alloc,
            b"catala-code 1\nscope R 0\nscope S 1\n0 pack 0\n1 pack 0\n2 return\n"
        ) == Some((3, 1))
    );
    Ok(())
}

#[test]
fn functions_are_declared_and_called_by_their_own_scope(rt: HostRuntime) -> Result<(), Fail> {
    let alloc = rt.alloc();
    assert!(rt;
        told(
            alloc,
            b"catala-code 1\nscope S 0\nfunction 1\n0 pack 0\n1 return\n"
        ) == Some((2, 1))
    );
    assert!(rt;
        told(
            alloc,
            b"catala-code 1\nscope S 0\nfunction 7\n0 pack 0\n1 return\n"
        ) == Some((2, 2))
    );
    assert!(rt;
        told(
            alloc,
            b"catala-code 1\nfile a.md\nscope R 1\nitem f internal 0:1:1 date of date\n\
              scope S 2\nfunction 0\n0 return\n1 return\n2 call 0 1\n"
        ) == Some((2, 2))
    );
    Ok(())
}
