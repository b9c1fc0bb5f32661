//! The name that is forgotten where there is no more room.
use owner_cache::Cache;
use pico_base::{Id, Memory, Name, Node};
use std::alloc::Global;
use std::mem::ManuallyDrop;
use std::test::Fail;

/// A cache that is never taken apart, so that its owners are cheaper to prove. It has learnt the queues 1 to 65.
fn full(alloc: Global) -> Result<ManuallyDrop<Cache>, Memory> {
    let mut cache = ManuallyDrop::new(Cache::new(alloc)?);
    for number in 1..66 {
        cache.learn(Name::Msg(Id(number)), Node(2))?;
    }
    Ok(cache)
}

/// Whether the cache, looked into name by name, says these nodes, or none where it is 0.
fn says(cache: &mut Cache, rows: &[(Name, u8)]) -> bool {
    for (name, wanted) in rows {
        let node = match cache.look(*name) {
            Some(node) => node.0,
            None => 0,
        };
        if node != *wanted {
            return false;
        }
    }
    true
}

const FIRST: Name = Name::Msg(Id(1));

const SECOND: Name = Name::Msg(Id(2));

const THIRD: Name = Name::Msg(Id(3));

const SET: Name = Name::Sem(Id(2));

#[test]
fn the_name_used_longest_ago_goes(rt: HostRuntime) -> Result<(), Fail> {
    let mut cache = full(rt.alloc())?;
    assert!(rt; says(&mut cache, &[(FIRST, 0), (SECOND, 2)]));
    // The look has kept the second name, so the third is the one that goes.
    cache.learn(SET, Node(3))?;
    assert!(rt; says(&mut cache, &[(THIRD, 0), (SECOND, 2), (SET, 3)]));
    cache.forget(SET);
    assert!(rt; says(&mut cache, &[(SET, 0)]));
    Ok(())
}
