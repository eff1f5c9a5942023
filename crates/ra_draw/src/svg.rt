//! The picture of a run.
ghost use Rattle.std.specs.Prelude.{ℕ, List, IfOk};
ghost use Rattle.ra_draw.specs.Following.{numbers_of};
ghost use Rattle.ra_draw.specs.Pictures.{AreLines, HasLines, IsElement, IsPicture, nodes_of, rows_group, rows_of};
ghost use Rattle.ra_draw.specs.Writing.{Adds, Says};
ghost use Rattle.ra_trace.specs.declared.line.Line.{Line};

mod act_look;
mod deferral_shapes;
mod end_lines;
mod layers;
mod legend;
mod lock_bars;
mod log_groups;
mod message_shapes;
mod row_numbers;
mod svg_writer;
mod wording;

use crate::Part;
use crate::layout::Layout;
use crate::layout::sizes::BOTTOM_MARGIN;
use crate::timeline::Timeline;
use end_lines::lines_height;
use layers::Layers;
use legend::{LEGEND, LEGEND_OF_LOG, LOOKS};
use ra_stamp::Memory;
use row_numbers::put_row_numbers;
use std::alloc::Global;
use svg_writer::PatternValue::{Number, Text};
use svg_writer::SvgWriter;

/// What the headline counts of the whole run.
#[derive(Clone, Copy)]
pub struct Totals {
    pub requests: u128,
    /// What is counted besides: messages of a trace, or grants of a mark log.
    pub counted: &'static str,
    pub count: u128,
}

/// Returns the ending of the word for this many things.
fn ending(count: u64) -> &'static str {
    if count == 1 { "" } else { "s" }
}

/// Adds what is drawn: how many nodes there are, the totals, and which lines if they are not all.
fn put_headline(svg: &mut SvgWriter, nodes: u16, totals: &Totals, part: Part) {
    // A text has far fewer of anything than the greatest `u64`.
    let requests = u64::try_from(totals.requests).unwrap_or(u64::MAX);
    let count = u64::try_from(totals.count).unwrap_or(u64::MAX);
    let nodes = u64::from(nodes);
    svg.write(
        "$ node$, $ request$, $ $$",
        &[
            Number(nodes),
            Text(ending(nodes)),
            Number(requests),
            Text(ending(requests)),
            Number(count),
            Text(totals.counted),
            Text(ending(count)),
        ],
    );
    if part.from > 1 {
        svg.write(", from line $", &[Number(part.from)]);
    }
    if part.to < u64::MAX {
        svg.write(", to line $", &[Number(part.to)]);
    }
}

/// Adds the size of the picture, its title, how shapes look, and this legend.
fn put_head(
    svg: &mut SvgWriter,
    layout: &Layout,
    legend: &'static str,
    totals: &Totals,
    part: Part,
) {
    let width = layout.width;
    let height = layout
        .y(layout.end)
        .saturating_add(lines_height(&layout.open))
        .saturating_add(BOTTOM_MARGIN);
    svg.write(
        " width=\"$\" height=\"$\" viewBox=\"0 0 $ $\">\n<title>",
        &[Number(width), Number(height), Number(width), Number(height)],
    );
    put_headline(svg, layout.nodes, totals, part);
    svg.write(
        "</title>\n$<rect width=\"$\" height=\"$\" fill=\"#fff\"/>\n<text x=\"16\" y=\"30\" class=\"headline\">",
        &[Text(LOOKS), Number(width), Number(height)],
    );
    put_headline(svg, layout.nodes, totals, part);
    svg.write("</text>\n$", &[Text(legend)]);
}

/// Draws what was laid out, the attributes of the picture first, and the numbers of its lines apart.
fn draw_layout(
    layers: &mut Layers,
    numbers: &mut SvgWriter,
    layout: &Layout,
    timeline: &Timeline,
    totals: &Totals,
    part: Part,
)
    ensures { Adds numbers.old (rows_group layout.now.nodes (numbers_of timeline.now.rows.items)) numbers.new }
{
    let legend = if timeline.is_log {
        LEGEND_OF_LOG
    } else {
        LEGEND
    };
    put_head(&mut layers.shapes, layout, legend, totals, part);
    layers.draw(layout, timeline);
    layers.draw_end(layout, part);
    put_row_numbers(numbers, layout, &timeline.rows);
}

/// Draws a part of a text that was followed, and the numbers of its lines apart. If memory runs out, the latter say so.
fn draw_timeline(
    alloc: Global,
    layers: &mut Layers,
    numbers: &mut SvgWriter,
    timeline: &Timeline,
    totals: &Totals,
    part: Part,
)
    ensures { Adds numbers.old (rows_group timeline.now.nodes (numbers_of timeline.now.rows.items)) numbers.new }
{
    let mut layout = Layout::new(alloc, timeline);
    match layout.fill(alloc, timeline) {
        Ok(()) => draw_layout(layers, numbers, &layout, timeline, totals, part),
        Err(_) => numbers.is_out = true,
    }
}

/// Draws the part of a text that is a trace or a mark log with these totals, and the numbers of its lines apart.
// The page is a function of its own, since two values that own memory in one make it many times as expensive to prove.
fn draw_part(
    alloc: Global,
    layers: &mut Layers,
    numbers: &mut SvgWriter,
    text: &[u8],
    part: Part,
    totals: &Totals,
)
    ensures { (lines : List Line) → AreLines lines text.now
        → Adds numbers.old (rows_group (nodes_of part lines) (rows_of part lines)) numbers.new }
{
    let mut timeline = Timeline::new(alloc);
    match timeline.follow(alloc, text, part) {
        Ok(()) => draw_timeline(alloc, layers, numbers, &timeline, totals, part),
        Err(_) => numbers.is_out = true,
    }
}

/// Returns the one element of a picture: the shapes, the labels in front of them, and then the numbers of lines.
fn element_of(alloc: Global, layers: &Layers, numbers: &SvgWriter) -> Result<Vec<u8>, Memory>
    ensures { (group : List ℕ) → Says numbers.now group → IfOk result (λ picture. IsElement group picture.items) }
{
    let mut picture = SvgWriter::new(alloc);
    picture.put(b"<svg xmlns=\"http://www.w3.org/2000/svg\"");
    picture.put_all(&layers.shapes);
    picture.put_all(&layers.labels);
    picture.put_all(numbers);
    picture.put(b"</svg>\n");
    picture.finish()
}

/// Returns the picture of a part of a text that has these totals.
pub fn picture_of(alloc: Global, text: &[u8], part: Part, totals: Totals) -> Result<Vec<u8>, Memory>
    requires { HasLines text.now }
    ensures { IfOk result (λ picture. IsPicture part text.now picture.items) }
{
    let mut layers = Layers {
        shapes: SvgWriter::new(alloc),
        labels: SvgWriter::new(alloc),
    };
    let mut numbers = SvgWriter::new(alloc);
    draw_part(alloc, &mut layers, &mut numbers, text, part, &totals);
    element_of(alloc, &layers, &numbers)
}
