//! A counter to which four threads add.
#![tactic(auto)]

use dstm_cells::Memory;

fn main(rt: HostRuntime) -> anyhow::Result<()> {
    let mut memory = Memory::new(rt.alloc());
    let counter = memory.cell(0u64)?;
    memory.run(&rt, 4, |me, _| {
        for _ in 0..250 {
            me.atomically(|tx| tx.update(counter, |n| n.wrapping_add(1)))?;
        }
        Ok(())
    })?;
    println!(rt; "{}", memory.get(counter)?)?;
    Ok(())
}
