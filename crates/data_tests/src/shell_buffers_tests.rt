//! The buffers of the concurrent cache, filled.
use super::assertions::assert_equal;
use engine_base::Item;
use shell_model::{Stripes, Task, WriteTasks};
use std::test::Fail;

#[test]
fn a_stripe_takes_sixteen_items(rt: HostRuntime) -> Result<(), Fail> {
    let mut stripes = Stripes::new(rt.alloc(), 2)?;
    for key in 0..17 {
        assert!(rt; stripes.count() == 2);
        assert_equal(&rt, stripes.offer(1, Item { key, node: 0 }), key < 16);
    }
    Ok(())
}

#[test]
fn the_write_queue_takes_128_tasks(rt: HostRuntime) -> Result<(), Fail> {
    let mut queue = WriteTasks::new(rt.alloc())?;
    for key in 0..129 {
        let task = Task::Add(Item { key, node: 0 });
        assert_equal(&rt, queue.push(task), key < 128);
    }
    Ok(())
}
