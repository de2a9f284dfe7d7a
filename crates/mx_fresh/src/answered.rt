//! What a request came to.

ghost use Rattle.std.specs.Prelude.{◌≡◌};
ghost use Rattle.mx_fresh.specs.Said.{alone, freeing, giving, moving, no_runs, runs_given, runs_freed};

use mx_pages::PageRun;
use mx_request::Reply;

/// What a request came to: its reply, and the run of exactly the pages that it gave out, and of those that it freed. None
/// where it gave out or freed none.
#[derive(Drop)]
pub struct Answered {
    pub reply: Reply,
    pub given: Option<PageRun>,
    pub freed: Option<PageRun>,
}

/// The runs of pages that a request on the hierarchy gave out and freed.
#[derive(Drop)]
pub(crate) struct Runs {
    pub(crate) given: Option<PageRun>,
    pub(crate) freed: Option<PageRun>,
}

impl Runs {
    /// No page was given out, and none freed.
    pub(crate) fn none() -> Runs
        ensures { result ≡ no_runs }
    {
        Runs {
            given: None,
            freed: None,
        }
    }

    /// The run that was given out.
    pub(crate) fn given(run: PageRun) -> Runs
        ensures { result ≡ runs_given run }
    {
        Runs {
            given: Some(run),
            freed: None,
        }
    }

    /// The run that was freed, if one was.
    pub(crate) fn freed(run: Option<PageRun>) -> Runs
        ensures { result ≡ runs_freed run }
    {
        Runs {
            given: None,
            freed: run,
        }
    }
}

impl Answered {
    /// A reply alone.
    pub(crate) fn alone(reply: Reply) -> Answered
        ensures { result ≡ alone reply }
    {
        Answered {
            reply,
            given: None,
            freed: None,
        }
    }

    /// A reply, and the run that was given out.
    pub(crate) fn giving(reply: Reply, given: Option<PageRun>) -> Answered
        ensures { result ≡ giving reply given }
    {
        Answered {
            reply,
            given,
            freed: None,
        }
    }

    /// A reply, and the run that was freed.
    pub(crate) fn freeing(reply: Reply, freed: Option<PageRun>) -> Answered
        ensures { result ≡ freeing reply freed }
    {
        Answered {
            reply,
            given: None,
            freed,
        }
    }

    /// A reply, and the runs that were given out and freed.
    pub(crate) fn moving(reply: Reply, runs: Runs) -> Answered
        ensures { result ≡ moving reply runs }
    {
        Answered {
            reply,
            given: runs.given,
            freed: runs.freed,
        }
    }
}
