// What is told of a memory by looks at it, beside threads that change it.
use crate::tests::plain::{
    Change, Part, Setting, Trial, add, atomically, cell_of, get, held, set, tries, view,
};
use dstm_cells::{Cell, Failed, GaveUp, Manager, Me, Memory, Stop, Tx};
use std::test::Fail;

// So often each thread does its part.
const ROUNDS: u32 = 100;

// Two numbers, and whether some thread has found another sum.
#[derive(Drop)]
struct Views {
    one: Cell<u64>,
    two: Cell<u64>,
    differs: Cell<bool>,
}

// Adds one to the first number, and takes one from the second one.
impl Change for Views {
    type Answer = ();

    fn make(&self, tx: &mut Tx<'_>) -> Result<(), Stop> {
        add(tx, self.one, 1)?;
        add(tx, self.two, u64::MAX)?;
        Ok(())
    }
}

// The sum of both, after which both are set to 0.
#[derive(Drop)]
struct Sum {
    one: Cell<u64>,
    two: Cell<u64>,
}

impl Change for Sum {
    type Answer = u64;

    fn make(&self, tx: &mut Tx<'_>) -> Result<u64, Stop> {
        let sum = get(tx, self.one)?.wrapping_add(get(tx, self.two)?);
        set(tx, self.one, 0)?;
        set(tx, self.two, 0)?;
        Ok(sum)
    }
}

impl Views {
    fn look(&self, me: &mut Me<'_>) -> Result<(), GaveUp> {
        let sum = Sum {
            one: self.one,
            two: self.two,
        };
        if view(me, &sum)? == 1000 {
            return Ok(());
        }
        let differs = Setting {
            cell: self.differs,
            value: true,
        };
        atomically(me, &differs)
    }
}

impl Part for Views {
    type Answer = ();

    fn play(&self, me: &mut Me<'_>, number: usize) -> Result<(), GaveUp> {
        for _ in 0..ROUNDS {
            if number == 0 {
                atomically(me, self)?;
            } else {
                self.look(me)?;
            }
        }
        Ok(())
    }
}

impl Trial for Views {
    fn of(memory: &mut Memory) -> Result<Views, Failed> {
        Ok(Views {
            one: cell_of(memory, 0u64)?,
            two: cell_of(memory, 1000u64)?,
            differs: cell_of(memory, false)?,
        })
    }

    fn is_left(&self, memory: &Memory) -> Result<bool, Failed> {
        let one = held(memory, self.one)?;
        let two = held(memory, self.two)?;
        let differs = held(memory, self.differs)?;
        Ok(one == 100 && two == 900 && !differs)
    }
}

#[test]
fn a_view_sees_one_moment_and_changes_nothing(rt: HostRuntime) -> Result<(), Fail> {
    tries::<Views, HostRuntime>(&rt, rt.alloc(), Manager::Polite, 3)
}
