//! The layers of a drawing, and the marks of each.

use super::arrows::{add_message, add_store};
use super::changes::{add_change_line, add_tag};
use super::entries::{add_column, add_journal};
use super::lanes::{add_band, add_name};
use super::legends::add_legend;
use super::titles::add_opening;
use crate::layout::Layout;
use mx_script::Session;
use mx_state::Journal;
use std::alloc::{AllocError, Global};

/// What a drawing shows.
#[derive(Clone, Copy)]
pub(super) struct Drawing<'a> {
    pub(super) session: &'a Session,
    pub(super) journal: &'a Journal,
    pub(super) layout: &'a Layout,
}

/// A layer: marks of one kind.
#[derive(Clone, Copy)]
pub(super) enum Layer {
    Opening,
    Bands,
    Names,
    Journals,
    ChangeLines,
    Columns,
    Tags,
    Stores,
    Messages,
    Legend,
}

/// The layers behind the boxes.
pub(super) const BEHIND: [Layer; 7] = [
    Layer::Opening,
    Layer::Bands,
    Layer::Names,
    Layer::Journals,
    Layer::ChangeLines,
    Layer::Columns,
    Layer::Tags,
];

/// The layers upon the boxes.
pub(super) const ABOVE: [Layer; 3] = [Layer::Stores, Layer::Messages, Layer::Legend];

/// As many bytes are reserved for a mark.
pub(super) const MARK: usize = 1_024;

impl<'a> Drawing<'a> {
    /// How many marks a layer has.
    pub(super) fn count(&self, layer: Layer) -> usize {
        match layer {
            Layer::Opening | Layer::Legend => 1,
            Layer::Bands => self.layout.bands.len(),
            Layer::Names => self.layout.lanes.len(),
            Layer::Journals => self.layout.rows.len(),
            Layer::ChangeLines | Layer::Tags => self.layout.tags.len(),
            Layer::Columns => self.layout.columns.len(),
            Layer::Stores => self.layout.placed.len(),
            Layer::Messages => self.layout.messages.len(),
        }
    }

    /// The mark at this place of a layer.
    pub(super) fn mark(
        &self,
        alloc: Global,
        layer: Layer,
        place: usize,
    ) -> Result<String, AllocError> {
        let mut out = String::with_capacity(alloc, MARK)?;
        self.add_mark(alloc, &mut out, layer, place)?;
        Ok(out)
    }

    fn add_mark(
        &self,
        alloc: Global,
        out: &mut String,
        layer: Layer,
        place: usize,
    ) -> Result<(), AllocError> {
        match layer {
            Layer::Opening => add_opening(alloc, out, self),
            Layer::Bands => add_band(out, self.layout, place),
            Layer::Names => add_name(alloc, out, self, place),
            Layer::Journals => add_journal(out, self.layout, place),
            Layer::ChangeLines => add_change_line(out, self.layout, place),
            Layer::Columns => add_column(alloc, out, self, place),
            Layer::Tags => add_tag(alloc, out, self.layout, place),
            Layer::Stores => add_store(out, self.layout, place),
            Layer::Messages => add_message(out, self.layout, place),
            Layer::Legend => add_legend(out, self.layout),
        }
    }
}
