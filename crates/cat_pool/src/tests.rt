use crate::{Pool, PoolNode, Refs};
use cat_num::Whole;
use cat_pos::List;
use cat_value::Value;
use std::test::Fail;

#[test]
fn a_pool_keeps_what_is_put_and_loaded(rt: HostRuntime) -> Result<(), Fail> {
    let alloc = rt.alloc();
    let mut pool = Pool::new(alloc);
    let one = pool.put(PoolNode::Integer(Whole::new(1).unwrap()))?;
    let two = pool.put(PoolNode::Integer(Whole::new(2).unwrap()))?;
    assert_eq!(rt; pool.put_list(&[one, two])?, 2);
    assert_eq!(rt; pool.len(), 3);
    let mark = pool.mark();
    let list = pool.unload(alloc, 2)?;
    assert_eq!(rt;
        format!(in alloc; "{list:?}")?.as_str(),
        "List(List { items: [Integer(Whole { value: 1 }), Integer(Whole { value: 2 })] })"
    );
    let again = pool.load(alloc, &list)?;
    assert_eq!(rt; again, 5);
    assert_eq!(rt; pool.len(), 6);
    let refs = match *pool.look(again) {
        PoolNode::List(refs) => refs,
        _ => Refs { start: 0, end: 0 },
    };
    assert_eq!(rt; pool.parts(refs), [3u32, 4].as_slice());
    pool.release(mark);
    assert_eq!(rt; pool.len(), 3);
    assert_eq!(rt; pool.parts(Refs { start: 0, end: 2 }), [0u32, 1].as_slice());
    Ok(())
}
