/// What one operation answers.
#[derive(Clone, Copy, Debug, PartialEq, Eq)]
pub enum Reply {
    /// The amount was moved.
    Moved,
    /// The source's balance is less than the amount; nothing was moved.
    Poor,
    /// A balance, a total or a value.
    Number(u64),
    Yes,
    No,
    /// The key is absent and there is no room for it.
    Full,
    /// The key is absent and so has no value.
    Absent,
    /// No branch of the job could ever be taken.
    Never,
}

impl Default for Reply {
    ghost use Rattle.std.specs.Prelude.{◌≡◌};
    ghost use Rattle.dstm_model.specs.declared.reply.Reply.TheVariants.{No};

    ghost is_default = { λ reply. reply ≡ No };

    fn default() -> Self {
        Reply::No
    }
}
