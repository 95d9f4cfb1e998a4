//! Listings that are read, and the first bad line of others.
use crate::{ImageRefusal, read_listing};
use std::alloc::Global;
use std::process::Abort;
use std::test::Fail;

/// The number of the first bad line; 0 where the text ends too early, and 99 where it is read.
fn told(alloc: Global, listing: &[u8]) -> usize {
    if listing.len() > 1000 {
        return 98;
    }
    match read_listing(alloc, listing) {
        Ok(_) => 99,
        Err(ImageRefusal::BadLine(line)) => line,
        Err(_) => 0,
    }
}

#[test]
fn lines_are_read_up_to_the_first_bad_one(rt: HostRuntime) -> Result<(), Fail> {
    let alloc = rt.alloc();
    assert_eq!(rt; told(alloc, b""), 0);
    assert_eq!(rt; told(alloc, b"catala-code 2\n"), 1);
    assert_eq!(rt;
        told(alloc, b"catala-code 1\nfile a.md\nscope S 0\n0 jump 7\n"),
        99
    );
    assert_eq!(rt;
        told(alloc, b"catala-code 1\nfile a.md\nscope S 0\n1 jump 7\n"),
        4
    );
    assert_eq!(rt;
        told(alloc, b"catala-code 1\nfile a.md\nscope S 0\n0 jump 7"),
        0
    );
    assert_eq!(rt;
        told(
            alloc,
            b"catala-code 1\nstructure S\nfield a list of list of integer\nfile a.md\n"
        ),
        4
    );
    assert_eq!(rt;
        told(
            alloc,
            b"catala-code 1\nscope S 0\nitem a input 0:3:9 integer of A, list of B\nitem b called 0:3:9 S\n0 op 1 2 3\n"
        ),
        99
    );
    assert_eq!(rt;
        told(
            alloc,
            b"catala-code 1\nconst list of integer []\nconst list of x\n0 jump 4294967295\n"
        ),
        99
    );
    assert_eq!(rt;
        told(
            alloc,
            b"catala-code 1\nconst list of integer []\n0 jump 4294967296\n"
        ),
        3
    );
    assert_eq!(rt;
        told(
            alloc,
            b"catala-code 1\ncase B list of money\nenumeration E\ncase A\ntarget S.x 0:1:2\n"
        ),
        2
    );
    assert_eq!(rt;
        told(
            alloc,
            b"catala-code 1\ntarget S.x 0:1:2\ndefinition 1:2:3\nfunction 2\nposition 1:02:3\n"
        ),
        5
    );
    Ok(())
}
