//! Views in memory.

ghost use Rattle.std.specs.Prelude.{◌≡◌, [], Some, None, List, IfErr, IfOk, IfSome, is_none};
ghost use Rattle.std.specs.Option.{option_map};
ghost use Rattle.dv_pipe.specs.Stages.{is_read};
ghost use Rattle.dv_views.specs.Inner.Keeping.{IsSoundLive, kept_seen};
ghost use Rattle.dv_views.specs.Placed as defined;
ghost use Rattle.dv_views.specs.Views.{live, stale};
ghost use Rattle.dv_views.specs.Inner.Views.{is_stale, kept_rows, mark_rows, state_of_mark, mark_ticks};

use crate::rows::ViewRows;
use crate::stage_operator::StageOperator;
use crate::state::ViewState;
use dv_change::{Taken, ToldRows};
use dv_pipe::Pipeline;
use dv_value::Str;
use std::fmt;
use std::marker::Model;
use std::mem::replace;

/// A view: its source and pipeline, what it keeps, and the changes of its rows that it passes on.
#[derive(Debug, Drop)]
pub(crate) struct View {
    source: Str,
    pipeline: Pipeline,
    /// The namespaces that its stages read by `$lookup`, in their order.
    lookups: Vec<Str>,
    /// Its height: one more than the greatest height of what it reads.
    height: usize,
    mark: Mark,
    /// The changes of its rows, if the change that views pass on reaches it.
    told: Option<Vec<Taken>>,
}

/// What a view keeps.
#[derive(Drop)]
pub(crate) enum Mark {
    /// Its rows, updated by changes.
    Live(ToldRows<StageOperator>),
    /// Nothing, since its rows have to be recomputed.
    Stale,
}

impl fmt::Debug for Mark {
    fn fmt<W: fmt::Write>(&self, f: &mut fmt::Formatter<W>) -> fmt::Result {
        match self {
            Mark::Live(live) => write!(f, "Live({})", live.len()),
            Mark::Stale => write!(f, "Stale"),
        }
    }
}

impl Model for View {
    ghost use Rattle.dv_views.specs.Inner.Body.{Body};
    ghost use Rattle.dv_views.specs.Inner.Code.{coded_body};

    ghost Value = { Body };

    ghost coded = { coded_body };

    ghost use Rattle.dv_views.specs.Inner.Inside.{AreListsRead, body_seen};

    ghost view = { body_seen };

    ghost invariant = { AreListsRead };
}

impl View {
    /// A view at this height that keeps these rows.
    pub(crate) fn new(
        source: Str,
        pipeline: Pipeline,
        lookups: Vec<Str>,
        height: usize,
        rows: ToldRows<StageOperator>,
    ) -> Self
        requires lookups { lookups.items ≡ defined.lookups_of pipeline source }
        requires sound { IsSoundLive rows }
        ensures { result ≡ record { source = source; stages = pipeline; height = height; mark = live (kept_seen rows); told = None } }
    {
        View {
            source,
            pipeline,
            lookups,
            height,
            mark: Mark::Live(rows),
            told: None,
        }
    }

    /// The collection or view that its pipeline reads.
    pub(crate) fn source(&self) -> &str
        ensures { result.now ≡ self.now.source }
    {
        self.source.as_str()
    }

    /// Its pipeline.
    pub(crate) fn pipeline(&self) -> &Pipeline
        ensures { result.now ≡ self.now.stages }
    {
        &self.pipeline
    }

    /// The namespaces that its stages read by `$lookup`, in their order.
    pub(crate) fn lookups(&self) -> &[Str]
        ensures { result.now ≡ defined.lookups_of self.now.stages self.now.source }
    {
        self.lookups.as_slice()
    }

    /// Its height: one more than the greatest height of what it reads.
    pub(crate) fn height(&self) -> usize
        ensures { result ≡ self.now.height }
    {
        self.height
    }

    /// Whether the view reads the namespace.
    pub(crate) fn reads(&self, namespace: &str) -> bool
        ensures { result ≡ is_read self.now.stages self.now.source namespace.now }
    {
        self.pipeline.reads(self.source.as_str(), namespace)
    }

    /// Whether the view has its rows.
    pub(crate) fn state(&self) -> ViewState
        ensures { result ≡ state_of_mark self.now.mark }
    {
        match self.mark {
            Mark::Live(_) => ViewState::Live,
            Mark::Stale => ViewState::Stale,
        }
    }

    /// Whether the view has no rows.
    pub(crate) fn is_stale(&self) -> bool
        ensures { result ≡ is_stale self.now.mark }
    {
        matches!(self.mark, Mark::Stale)
    }

    /// The rows that the view keeps.
    pub(crate) fn rows(&self) -> Option<ViewRows<'_>>
        ensures { result ≡ kept_rows self.now.mark }
    {
        match &self.mark {
            Mark::Live(live) => Some(ViewRows::of_kept(live)),
            Mark::Stale => None,
        }
    }

    /// How many rows the view keeps.
    pub(crate) fn row_count(&self) -> usize
        ensures { result ≡ mark_rows self.now.mark }
    {
        match &self.mark {
            Mark::Live(live) => live.len(),
            Mark::Stale => 0,
        }
    }

    /// The count of the work that its changes took since its rows were made or recomputed.
    pub(crate) fn ticks(&self) -> u64
        ensures { result ≡ mark_ticks self.now.mark }
    {
        match &self.mark {
            Mark::Live(live) => live.ticks(),
            Mark::Stale => 0,
        }
    }

    /// Its rows, if it is live.
    pub(crate) fn live(&self) -> Option<&ToldRows<StageOperator>>
        ensures kept { IfSome result (λ rows. self.now.mark ≡ live (kept_seen rows.now)) }
        ensures sound { IfSome result (λ rows. IsSoundLive rows.now) }
        ensures none { is_none result ≡ is_stale self.now.mark }
    {
        match &self.mark {
            Mark::Live(live) => Some(live),
            Mark::Stale => None,
        }
    }

    /// The changes of its rows for the change that views pass on. None if that change doesn't reach it.
    pub(crate) fn told(&self) -> Option<&[Taken]>
        ensures { option_map (λ all. all.now) result ≡ self.now.told }
    {
        match &self.told {
            Some(told) => Some(told.as_slice()),
            None => None,
        }
    }

    /// Drops the changes of its rows, so that it passes on none.
    pub(crate) fn leave(&mut self)
        ensures { self.new ≡ record self.old { told = None } }
    {
        self.told = None;
    }

    /// Takes out the rows, if the view is live, for a change that reaches it. The view is stale then, and passes on an empty list
    /// of changes.
    pub(crate) fn take_out(&mut self, nothing: Vec<Taken>) -> Option<ToldRows<StageOperator>>
        requires { nothing.items ≡ [] }
        ensures left { self.new ≡ record self.old { mark = stale; told = Some [] } }
        ensures kept { IfSome result (λ rows. self.old.mark ≡ live (kept_seen rows)) }
        ensures sound { IfSome result (λ rows. IsSoundLive rows) }
    {
        self.told = Some(nothing);
        match replace(&mut self.mark, Mark::Stale) {
            Mark::Live(live) => Some(live),
            Mark::Stale => None,
        }
    }

    /// Puts back the rows after a change, with the changes of the rows, if `turned` is `Ok`.
    pub(crate) fn settle<E: Drop>(
        &mut self,
        turned: Result<(ToldRows<StageOperator>, Vec<Taken>), E>,
    )
        requires { IfOk turned (λ r. IsSoundLive r.0) }
        ensures live { IfOk turned (λ r. self.new ≡ record self.old { mark = live (kept_seen r.0); told = Some r.1.items }) }
        ensures left { IfErr turned (λ _. self.new ≡ self.old) }
    {
        if let Ok((rows, told)) = turned {
            self.mark = Mark::Live(rows);
            self.told = Some(told);
        }
    }

    /// Keeps these rows from now on.
    pub(crate) fn keep(&mut self, rows: ToldRows<StageOperator>)
        requires { IsSoundLive rows }
        ensures { self.new ≡ record self.old { mark = live (kept_seen rows) } }
    {
        self.mark = Mark::Live(rows);
    }
}
