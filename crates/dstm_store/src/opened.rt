ghost use Rattle.std.specs.Prelude.{◌≡◌, ◌++◌, ℕ, IfOk, OnOk};
ghost use Rattle.dstm_model.specs.Layout.{IsValid};
ghost use Rattle.dstm_model.specs.Store.{opening_store};
ghost use Rattle.dstm_model.specs.Objects.{plain};
ghost use Rattle.dstm_store.specs.Whole.{StandsFor};
ghost use Rattle.dstm_store.specs.Opening.{opening_structure, opening_values};

use dstm_model::{Layout, Val};
use std::alloc::{AllocError, Global};

/// The values of a layout's objects where every balance is the opening balance and both structures are
/// empty.
pub fn opening(alloc: Global, layout: &Layout) -> Result<Vec<Val>, AllocError>
    requires { IsValid layout.now }
    ensures values { IfOk result (λ values. values.items ≡ opening_values layout.now) }
    ensures stands { IfOk result (λ values. StandsFor layout.now values.items (opening_store layout.now)) }
{
    let mut values = vec![in alloc; plain(layout.opening); layout.accounts as usize]?;
    push_structure(&mut values, layout.list)?;
    push_structure(&mut values, layout.tree)?;
    Ok(values)
}

// Puts the objects of a structure that holds no keys behind the values.
fn push_structure(values: &mut Vec<Val>, room: u32) -> Result<(), AllocError>
    ensures { OnOk result (values.new.items ≡ values.old.items ++ opening_structure room) }
{
    if room == 0 {
        return Ok(());
    }
    values.push(plain(0))?;
    for free in 0..room {
        values.push(plain(u64::from(free) + 1))?;
    }
    values.push(plain(0))?;
    Ok(())
}

// The value with this low part.
fn plain(low: u64) -> Val
    ensures { result ≡ plain low }
{
    Val { low, high: 0 }
}
