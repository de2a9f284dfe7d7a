//! The marks of a drawing, as SVG.

mod colours;
mod texts;

use crate::positions::Position;
pub(crate) use colours::{ink_of, ink_on, ring_colour};
use mx_judging::Part::{Decimal, Text};
use mx_judging::add_parts;
use std::alloc::AllocError;
pub(crate) use texts::{add_rising, add_text, add_words};

/// Adds what stands behind `<svg` in a drawing of this size: the arrow's head, and a white ground.
pub(crate) fn add_head(out: &mut String, width: u32, height: u32) -> Result<(), AllocError> {
    let (wide, high) = (Decimal(width), Decimal(height));
    add_parts(
        out,
        &[
            Text(" xmlns=\"http://www.w3.org/2000/svg\" width=\""),
            wide,
            Text("\" height=\""),
            high,
            Text("\" viewBox=\"0 0 "),
            wide,
            Text(" "),
            high,
            Text(HEAD),
        ],
    )
}

const HEAD: &str =
    "\" style=\"max-width:100%;height:auto\" font-family=\"monospace\" font-size=\"13\">\n<defs>\
    <marker id=\"to-store\" viewBox=\"0 0 8 8\" refX=\"7\" refY=\"4\" markerWidth=\"12\" markerHeight=\"12\" markerUnits=\"userSpaceOnUse\" \
    orient=\"auto\"><path d=\"M0 0L8 4L0 8z\" fill=\"#00695c\" stroke=\"#ffffff\"/></marker>\
    <marker id=\"to-message\" viewBox=\"0 0 8 8\" refX=\"7\" refY=\"4\" markerWidth=\"12\" markerHeight=\"12\" markerUnits=\"userSpaceOnUse\" \
    orient=\"auto\"><path d=\"M0 0L8 4L0 8z\" fill=\"#8e24aa\" stroke=\"#ffffff\"/></marker>\
    <pattern id=\"hatch\" width=\"8\" height=\"8\" patternUnits=\"userSpaceOnUse\" patternTransform=\"rotate(45)\">\
    <rect width=\"3\" height=\"8\" fill=\"#ffffff\" fill-opacity=\"0.75\"/></pattern></defs>\n\
    <rect width=\"100%\" height=\"100%\" fill=\"#ffffff\"/>\n";

/// Adds a rectangle.
pub(crate) fn add_rect(
    out: &mut String,
    at: Position,
    width: u32,
    height: u32,
    style: &str,
) -> Result<(), AllocError> {
    add_parts(
        out,
        &[
            Text("<rect x=\""),
            Decimal(at.x),
            Text("\" y=\""),
            Decimal(at.y),
            Text("\" width=\""),
            Decimal(width),
            Text("\" height=\""),
            Decimal(height),
            Text("\" "),
            Text(style),
            Text("/>\n"),
        ],
    )
}

/// Adds a straight line.
pub(crate) fn add_line(
    out: &mut String,
    from: Position,
    to: Position,
    style: &str,
) -> Result<(), AllocError> {
    let blank = Text(" ");
    add_parts(
        out,
        &[
            Text("<path d=\"M"),
            Decimal(from.x),
            blank,
            Decimal(from.y),
            Text("L"),
            Decimal(to.x),
            blank,
            Decimal(to.y),
            Text("\" "),
            Text(style),
            Text("/>\n"),
        ],
    )
}

/// The way of an arrow: it leaves and arrives by the two places between.
#[derive(Clone, Copy)]
pub(crate) struct Way {
    pub(crate) from: Position,
    pub(crate) by: Position,
    pub(crate) past: Position,
    pub(crate) to: Position,
}

/// What an arrow says, and whether it leads far, from one row to another.
#[derive(Clone, Copy)]
pub(crate) enum Arrow {
    /// The read stands for this store.
    Store,
    StoreFar,
    /// The message is taken here.
    Message,
    MessageFar,
}

impl Arrow {
    // Its rim.
    fn rim(self) -> &'static str {
        match self {
            Arrow::Store | Arrow::Message => " stroke=\"#ffffff\" stroke-width=\"5\"/>\n",
            Arrow::StoreFar | Arrow::MessageFar => {
                " stroke=\"#ffffff\" stroke-width=\"3\" stroke-opacity=\"0.7\"/>\n"
            }
        }
    }

    // Its line.
    fn stroke(self) -> &'static str {
        match self {
            Arrow::Store =>
                " stroke=\"#00695c\" stroke-width=\"2\" marker-end=\"url(#to-store)\"/>\n",
            Arrow::StoreFar => {
                " stroke=\"#00695c\" stroke-width=\"1.3\" marker-end=\"url(#to-store)\"/>\n"
            }
            Arrow::Message => {
                " stroke=\"#8e24aa\" stroke-width=\"2\" marker-end=\"url(#to-message)\"/>\n"
            }
            Arrow::MessageFar => {
                " stroke=\"#8e24aa\" stroke-width=\"1.3\" marker-end=\"url(#to-message)\"/>\n"
            }
        }
    }
}

/// Adds an arrow, with a white rim.
pub(crate) fn add_arrow(out: &mut String, arrow: Arrow, way: &Way) -> Result<(), AllocError> {
    add_way(out, way, arrow.rim())?;
    add_way(out, way, arrow.stroke())
}

fn add_way(out: &mut String, way: &Way, stroke: &str) -> Result<(), AllocError> {
    let blank = Text(" ");
    add_parts(
        out,
        &[
            Text("<path d=\"M"),
            Decimal(way.from.x),
            blank,
            Decimal(way.from.y),
            Text("C"),
            Decimal(way.by.x),
            blank,
            Decimal(way.by.y),
            blank,
            Decimal(way.past.x),
            blank,
            Decimal(way.past.y),
            blank,
            Decimal(way.to.x),
            blank,
            Decimal(way.to.y),
            Text("\" fill=\"none\""),
            Text(stroke),
        ],
    )
}

/// Adds a disc.
pub(crate) fn add_disc(
    out: &mut String,
    at: Position,
    radius: u32,
    style: &str,
) -> Result<(), AllocError> {
    add_parts(
        out,
        &[
            Text("<circle cx=\""),
            Decimal(at.x),
            Text("\" cy=\""),
            Decimal(at.y),
            Text("\" r=\""),
            Decimal(radius),
            Text("\" "),
            Text(style),
            Text("/>\n"),
        ],
    )
}

/// Adds a quarter of a disc, above and to the right of its middle.
pub(crate) fn add_quarter(
    out: &mut String,
    middle: Position,
    radius: u32,
    style: &str,
) -> Result<(), AllocError> {
    let (x, y, blank) = (Decimal(middle.x), Decimal(middle.y), Text(" "));
    add_parts(
        out,
        &[
            Text("<path d=\"M"),
            x,
            blank,
            y,
            Text("L"),
            Decimal(middle.right(radius).x),
            blank,
            y,
            Text("A"),
            Decimal(radius),
            blank,
            Decimal(radius),
            Text(" 0 0 0 "),
            x,
            blank,
            Decimal(middle.up(radius).y),
            Text("z\" "),
            Text(style),
            Text("/>\n"),
        ],
    )
}
