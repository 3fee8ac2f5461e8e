// Tables of one object and their founders, by contracts that say no more than the tests need.
ghost use Rattle.std.specs.Prelude.{◌≡◌, IfOk};
ghost use Rattle.dstm_core.specs.Words.{IsValid};

use dstm_core::Shape;
use dstm_engine::{Caller, EnrolError, Founder, Stm};
use dstm_model::{AnyLaw, Val};
use std::alloc::Global;
use std::test::Fail;

// A table whose object has this value, and its founder.
pub fn table_of(
    alloc: Global,
    value: Val,
    shape: Shape,
) -> Result<(Stm<AnyLaw>, Founder<AnyLaw>), Fail>
    requires valid { IsValid shape }
    requires objects { shape.objects ≡ 1 }
    ensures shape { IfOk result (λ t. t.0.terms.shape ≡ shape) }
    ensures founder { IfOk result (λ t. (t.1.home ≡ t.0) × (t.1.made ≡ 0) × (t.1.guests ≡ 0)) }
{
    let start = vec![in alloc; value]?;
    Ok(Stm::make(alloc, start, shape, AnyLaw)?)
}

// All callers of the table were made.
pub fn is_full(alloc: Global, stm: &Stm<AnyLaw>, founder: &mut Founder<AnyLaw>) -> bool
    requires table { founder.old.home ≡ stm.now }
    ensures table { founder.new.home ≡ stm.now }
    ensures guests { founder.new.guests ≡ founder.old.guests }
{
    matches!(founder.caller(alloc, stm, 1), Err(EnrolError::Full))
}

// Takes a caller back.
pub fn retire(founder: &mut Founder<AnyLaw>, stm: &Stm<AnyLaw>, caller: Caller<AnyLaw>)
    requires table { founder.old.home ≡ stm.now }
    requires caller { caller.home ≡ stm.now }
    ensures table { founder.new.home ≡ stm.now }
    ensures guests { founder.new.guests ≡ founder.old.guests }
{
    founder.retire(stm, caller);
}

// Closes a table that had no guests, of which all callers are back: its values.
pub fn close(alloc: Global, stm: Stm<AnyLaw>, founder: Founder<AnyLaw>) -> Result<Vec<Val>, Fail>
    requires table { founder.home ≡ stm }
    requires guests { founder.guests ≡ 0 }
    requires out { founder.view.out ≡ 0 }
{
    let (values, _record) = stm.close(alloc, founder)?;
    Ok(values)
}

// Closes a table of which all are back, and keeps no record: its values.
pub fn close_plain(
    alloc: Global,
    stm: Stm<AnyLaw>,
    founder: Founder<AnyLaw>,
) -> Result<Vec<Val>, Fail>
    requires table { founder.home ≡ stm }
{
    if founder.out() > 0 {
        return Err(Fail::new("one is out"));
    }
    Ok(stm.close_plain(alloc, founder)?)
}
