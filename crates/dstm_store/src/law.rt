ghost use Rattle.dstm_store.specs.Whole.{StandsForOne};

use dstm_model::{Law, Layout};

/// The law of a layout: the map stands for a store.
#[derive(Clone, Copy, Debug, PartialEq, Eq)]
pub struct StoreLaw {
    pub layout: Layout,
}

impl Law for StoreLaw {
    ghost use Rattle.dstm_store.specs.Whole.{IsLawful};

    ghost holds = { λ law map. IsLawful law.layout map };
}

/// A map stands for no two stores. This is a statement on all maps; the function does nothing.
pub fn stands_for_one()
    ensures { StandsForOne }
{}
