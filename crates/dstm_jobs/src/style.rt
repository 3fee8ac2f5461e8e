ghost use Rattle.std.specs.Prelude.{◌≡◌};
ghost use Rattle.dstm_jobs.specs.Styles.{style_of};

/// How jobs are run.
#[derive(Clone, Copy, Debug, PartialEq, Eq)]
pub enum Style {
    /// Their operations in order.
    Plain,
    /// The same, and walks along the list let go the reads behind them.
    Loose,
    /// The first open branch of each.
    Branches,
}

impl Style {
    /// The style of a workload of this version.
    pub fn of(version: u32, release: bool) -> Style
        ensures { result ≡ style_of version release }
    {
        if version == 3 {
            Style::Branches
        } else if release {
            Style::Loose
        } else {
            Style::Plain
        }
    }
}
