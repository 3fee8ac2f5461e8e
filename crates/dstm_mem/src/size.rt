ghost use Rattle.std.specs.Prelude.{◌≡◌, length};

use dstm_model::Law;

/// The law that says how many objects there are, and forbids nothing: the least under which a body can open them.
#[derive(Clone, Copy, Debug, PartialEq, Eq)]
pub struct OfSize {
    pub objects: u32,
}

impl Law for OfSize {
    ghost holds = { λ law map. length map ≡ law.objects };
}
