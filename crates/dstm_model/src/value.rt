ghost use Rattle.std.specs.Prelude.{List};
ghost use Rattle.dstm_model.specs.declared.value.Val.{Val};

/// The value of one object: two words that are read and written together.
#[derive(Clone, Copy, Debug, Default, PartialEq, Eq)]
pub struct Val {
    pub low: u64,
    pub high: u64,
}

/// Says which maps are lawful.
pub trait Law: Drop {
    /// The map, the value of object `o` at place `o`, is lawful.
    ghost holds: { Self → List Val → Type 0 };
}

/// The law that holds for every map.
#[derive(Clone, Copy, Debug, Default, PartialEq, Eq)]
pub struct AnyLaw;

impl Law for AnyLaw {
    ghost holds = { λ _ _. Unit {0} };
}
