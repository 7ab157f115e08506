//! The rows of a view, one after the other.

ghost use Rattle.std.specs.Prelude.{◌≡◌};
ghost use Rattle.std.specs.Iterator.{YieldsFirstRef, item_count};
ghost use Rattle.dv_change.specs.Changes.{forget};

use crate::stage_operator::StageOperator;
use dv_change::{Pos, ToldRows};
use dv_value::Document;
use std::collections::btree_map::Values;
use std::marker::Model;

/// Rows of a view that are still to come, in order.
#[derive(Debug, Drop)]
pub struct ViewRows<'a> {
    rows: Values<'a, Pos, Document>,
}

impl<'a> Model for ViewRows<'a> {
    ghost use Rattle.std.specs.Prelude.{List};
    ghost use Rattle.dv_pipe.specs.Sources.{Row};
    ghost use Rattle.dv_views.specs.Inner.Code.{coded_view_rows};

    ghost Value = { List Row };

    ghost coded = { coded_view_rows };

    ghost view = { λ r. r.rows };
}

impl<'a> ViewRows<'a> {
    /// The rows of a live view.
    pub(crate) fn of_kept(live: &'a ToldRows<StageOperator>) -> Self
        ensures { result ≡ forget live.now.rows.entries }
    {
        ViewRows { rows: live.rows() }
    }
}

impl<'a> Iterator for ViewRows<'a> {
    type Item = &'a Document;

    ghost next_gives = { YieldsFirstRef (λ r. r) };

    ghost remaining = { item_count (λ r. r) };

    fn next(&mut self) -> Option<&'a Document> {
        self.rows.next()
    }
}

impl<'a> ExactSizeIterator for ViewRows<'a> {
    fn len(&self) -> usize {
        self.rows.len()
    }
}
