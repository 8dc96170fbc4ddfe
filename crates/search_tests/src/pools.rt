//! What a pool gives back, and when.

use state_pool::Pool;
use std::test::Fail;

#[test]
fn a_shared_value_comes_out_last(rt: HostRuntime) -> Result<(), Fail> {
    let mut pool = Pool::new(rt.alloc());
    pool.reserve(1)?;
    let slot = pool.keep('a');
    pool.share(slot);
    assert_eq!(rt; (*pool.get(slot), pool.held(slot)), ('a', 2));
    assert_eq!(rt; pool.release(slot), None);
    assert_eq!(rt; (pool.held(slot), pool.count()), (1, 1));
    assert_eq!(rt; pool.release(slot), Some('a'));
    assert_eq!(rt; pool.count(), 0);
    Ok(())
}

#[test]
fn values_stand_apart(rt: HostRuntime) -> Result<(), Fail> {
    let mut pool = Pool::new(rt.alloc());
    pool.reserve(3)?;
    let first = pool.keep('a');
    let second = pool.keep('b');
    pool.share(second);
    assert_eq!(rt; pool.release(first), Some('a'));
    let third = pool.keep('c');
    assert_eq!(rt; pool.release(second), None);
    assert_eq!(rt; (*pool.get(second), pool.held(second)), ('b', 1));
    assert_eq!(rt; (*pool.get(third), pool.held(third)), ('c', 1));
    assert_eq!(rt; pool.count(), 2);
    Ok(())
}
