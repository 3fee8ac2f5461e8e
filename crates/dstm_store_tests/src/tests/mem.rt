ghost use Rattle.std.specs.Prelude.{◌≡◌, ℕ, ◌<◌, List, length, slice_set, IsSome, IsTrue, true, false, IfOk};
ghost use Rattle.dstm_model.specs.declared.value.Val.{Val};
ghost use Rattle.dstm_model.specs.Map.{value_at};

use crate::tests::counting::run_body;
use dstm_mem::{Body, FlatMem, Mem, Release, admits_what_it_holds};
use dstm_model::{Law, Val};
use std::test::Fail;

// The law that there is an object.
#[derive(Clone, Copy)]
struct NotEmpty;

impl Law for NotEmpty {
    ghost holds = { λ _ map. 0 < length map };
}

// Sets the first object, and keeps the value that it found there.
#[derive(Drop)]
struct Replace {
    law: NotEmpty,
    value: Val,
    found: Val,
}

impl Body<NotEmpty> for Replace {
    type Task = Val;

    type Outcome = Val;

    ghost law = { λ s. s.law };

    ghost task = { λ s. s.value };

    ghost outcome = { λ s. s.found };

    ghost right = { λ s map after. (s.found ≡ value_at map 0) × (after ≡ slice_set map 0 s.value) };

    ghost leaves = { λ s held opened. IsSome (held 0) × IsTrue (opened 0) };

    fn run<M: Mem>(&mut self, mem: &mut M) -> Result<(), M::Err> {
        self.found = mem.open_write(0)?;
        mem.set(0, self.value);
        Ok(())
    }
}

// Opens an object for writing, sets it, and reads it: what the two opens answered.
fn set_and_read<M: Mem>(mem: &mut M, o: u32, value: Val) -> Result<(Val, Val), M::Err>
    requires exists { o < M.objects mem.old }
    requires live { IsTrue (M.is_live mem.old) }
    ensures { IfOk result (λ answers. answers.1 ≡ value) }
{
    let before = mem.open_write(o)?;
    mem.set(o, value);
    let after = mem.open_read(o)?;
    Ok((before, after))
}

// Opens an object for reading and lets the read go: whether it was a read before, and after.
fn read_and_release<M: Release>(mem: &mut M, o: u32) -> Result<(bool, bool), M::Err>
    requires exists { o < M.Mem.objects mem.old }
    requires live { IsTrue (M.Mem.is_live mem.old) }
    requires off { M.Mem.all_write (M.Mem.place mem.old) ≡ false }
    requires unopened { M.Mem.is_opened mem.old o ≡ false }
    ensures before { IfOk result (λ answers. answers.0 ≡ true) }
    ensures after { IfOk result (λ answers. answers.1 ≡ false) }
{
    mem.open_read(o)?;
    let before = mem.is_read(o);
    mem.release(o);
    let after = mem.is_read(o);
    Ok((before, after))
}

#[test]
fn a_read_is_let_go(rt: HostRuntime) -> Result<(), Fail> {
    let five = Val { low: 5, high: 0 };
    let mut mem = FlatMem::make(rt.alloc(), vec![in rt.alloc(); five]?)?;
    match read_and_release(&mut mem, 0) {
        Ok(answers) => assert!(rt; answers == (true, false)),
        Err(never) => match never {},
    }
    Ok(())
}

#[test]
fn a_set_is_read_back(rt: HostRuntime) -> Result<(), Fail> {
    let five = Val { low: 5, high: 0 };
    let six = Val { low: 6, high: 0 };
    let mut mem = FlatMem::make(rt.alloc(), vec![in rt.alloc(); five]?)?;
    match set_and_read(&mut mem, 0, six) {
        Ok(answers) => assert!(rt; answers == (five, six)),
        Err(never) => match never {},
    }
    assert!(rt; mem.values().as_slice() == [six].as_slice());
    Ok(())
}

#[test]
fn a_body_leaves_what_it_sets(rt: HostRuntime) -> Result<(), Fail> {
    let one = Val { low: 1, high: 2 };
    let three = Val { low: 3, high: 4 };
    let mut body = Replace {
        law: NotEmpty,
        value: three,
        found: three,
    };
    let values = vec![in rt.alloc(); one, one]?;
    let (_, after) = run_body::<NotEmpty, Replace>(rt.alloc(), values, &mut body)?;
    assert!(rt; after.as_slice() == [three, one].as_slice());
    assert!(rt; body.found == one);
    Ok(())
}

#[test]
fn the_law_of_releases_can_be_cited(_rt: HostRuntime) {
    admits_what_it_holds::<FlatMem>();
}
