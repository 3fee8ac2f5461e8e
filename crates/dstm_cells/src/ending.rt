// How the answer of a closure ends its attempt.
ghost use Rattle.std.specs.Prelude.{◌≡◌, Bool, false, is_ok, true};

/// How the answer of a closure ends its attempt.
pub(crate) trait Ending<T> {
    /// It commits the attempt; else it leaves it, and nothing that was set takes effect.
    ghost commits: { T → Bool };

    /// Whether it commits it.
    fn commits(&self, answer: &T) -> bool
        ensures { result ≡ commits answer.now };
}

// Each answer commits.
#[derive(Clone, Copy)]
pub(crate) struct Commits;

impl<T> Ending<T> for Commits {
    ghost commits = { λ _. true };

    #[inline(always)]
    fn commits(&self, _answer: &T) -> bool {
        true
    }
}

// Each answer leaves.
#[derive(Clone, Copy)]
pub(crate) struct Leaves;

impl<T> Ending<T> for Leaves {
    ghost commits = { λ _. false };

    #[inline(always)]
    fn commits(&self, _answer: &T) -> bool {
        false
    }
}

// `Ok` commits, and `Err` leaves.
#[derive(Clone, Copy)]
pub(crate) struct CommitsOk;

impl<T, E> Ending<Result<T, E>> for CommitsOk {
    ghost commits = { is_ok };

    #[inline(always)]
    fn commits(&self, answer: &Result<T, E>) -> bool {
        answer.is_ok()
    }
}
