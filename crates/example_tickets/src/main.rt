//! A ticket office with two desks, which sell the same tickets on two threads. None is lost, and none is sold twice.
#![tactic(auto)]

mod office;
mod sale;

use office::sell_all;

const TICKETS: u64 = 100;

fn main(rt: HostRuntime) -> anyhow::Result<()> {
    let sales = sell_all(&rt, rt.alloc(), TICKETS)?;
    println!(rt;
        "{} tickets, {} left or sold",
        TICKETS,
        sales.left + sales.east + sales.west
    )?;
    Ok(())
}
