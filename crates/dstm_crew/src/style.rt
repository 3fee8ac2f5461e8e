ghost use Rattle.std.specs.Prelude.{◌≡◌};
ghost use Rattle.dstm_jobs.specs.Styles.{style_of};
ghost use Rattle.dstm_crew.specs.Releases.{releases};

use dstm_jobs::Style;
use dstm_options::{Engine, Options};

/// How the jobs of a workload of this version are run by these options.
pub(crate) fn style_for(options: &Options, version: u32) -> Style
    ensures { result ≡ style_of version (releases options.now) }
{
    Style::of(version, releases(options))
}

// Whether walks along the list let reads go: by DSTM, and where reads stay reads.
fn releases(options: &Options) -> bool
    ensures { result ≡ releases options.now }
{
    match options.engine {
        Engine::Dstm => options.release && !options.all_write,
        Engine::Tl2 => false,
    }
}
