//! The state of a view.

ghost use Rattle.std.specs.Prelude.{◌≡◌};
ghost use Rattle.dv_catalog.specs.Inner.StatsView.{live_shown};

use dv_views::ViewState;

/// The state of a view. A stale one has no rows, and has counted nothing.
#[derive(Clone, Copy, Debug)]
pub struct Stats {
    /// Whether it has its rows: a stale view has none until it is read.
    pub is_live: bool,
    pub rows: usize,
    /// The work that changes took since its rows were made, at most 9,223,372,036,854,775,807.
    pub ticks: u64,
}

/// Whether a view in this state is live.
pub(crate) fn is_live(state: ViewState) -> bool
    ensures { result ≡ live_shown state }
{
    match state {
        ViewState::Live => true,
        ViewState::Stale => false,
    }
}
