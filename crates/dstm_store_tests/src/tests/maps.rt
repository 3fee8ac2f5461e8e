ghost use Rattle.dstm_mem.specs.Operations.{IsReady};
ghost use Rattle.dstm_model.specs.Layout.{IsValid};
ghost use Rattle.dstm_model.specs.Objects.{objects_of};
ghost use Rattle.dstm_store.specs.Whole.{StandsFor};

use crate::tests::counting::{Counting, opened};
use crate::tests::store::count;
use dstm_mem::Mem;
use dstm_model::{Layout, Op, Reply};
use std::alloc::{AllocError, Global};
use std::collections::BTreeMap;

// What a map with room for so many keys answers.
fn expected(map: &mut BTreeMap<u32, u64>, room: usize, op: Op) -> Result<Reply, AllocError> {
    let (key, value, replaces) = match op {
        Op::Insert { key, .. } => (key, 0, false),
        Op::Put { key, value } => (key, value, true),
        Op::Remove { key, .. } => return Ok(yes_or_no(map.remove(&key).is_some())),
        Op::Member { key, .. } => return Ok(yes_or_no(map.contains_key(&key))),
        Op::Get { key } => return Ok(map.get(&key).copied().map_or(Reply::Absent, Reply::Number)),
        _ => return Ok(Reply::Never),
    };
    if map.contains_key(&key) {
        if replaces {
            put(map, key, value)?;
        }
        return Ok(Reply::No);
    }
    if map.len() == room {
        return Ok(Reply::Full);
    }
    put(map, key, value)?;
    Ok(Reply::Yes)
}

fn put(map: &mut BTreeMap<u32, u64>, key: u32, value: u64) -> Result<(), AllocError> {
    match map.insert(key, value) {
        Ok(_) => Ok(()),
        Err(_) => Err(AllocError),
    }
}

fn yes_or_no(yes: bool) -> Reply {
    if yes { Reply::Yes } else { Reply::No }
}

/// Tells whether these operations on a list or a tree with room for so many keys are answered as by a map, one after the
/// other.
pub(crate) fn answer_as_a_map(
    alloc: Global,
    layout: &Layout,
    room: usize,
    ops: &[Op],
) -> Result<bool, AllocError>
    requires { IsValid layout.now }
{
    let mut mem = opened(alloc, layout)?;
    all_answer_so(&mut mem, &mut BTreeMap::new(alloc), layout, room, ops)
}

fn all_answer_so(
    mem: &mut Counting,
    map: &mut BTreeMap<u32, u64>,
    layout: &Layout,
    room: usize,
    ops: &[Op],
) -> Result<bool, AllocError>
    requires valid { IsValid layout.now }
    requires ready { IsReady ⟦<Counting as Mem>⟧ (objects_of layout.now) (StandsFor layout.now) mem.old }
{
    for op in ops {
        let wanted = expected(map, room, *op)?;
        match count(mem, layout, op) {
            Some((reply, _)) if reply == wanted => {}
            _ => return Ok(false),
        }
    }
    Ok(true)
}
