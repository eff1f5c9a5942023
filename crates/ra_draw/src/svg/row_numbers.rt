//! The numbers of lines beside the rows, in a group of their own at the end of a picture.
ghost use Rattle.ra_draw.specs.Following.{numbers_of};
ghost use Rattle.ra_draw.specs.Pictures.{row_text, rows_group};
ghost use Rattle.ra_draw.specs.Writing.{Adds};

use crate::layout::Layout;
use crate::layout::sizes::ROW_NUMBERS_X;
use crate::svg::svg_writer::SvgWriter;
use crate::timeline::Row;

/// Adds the number of a line beside its row.
fn put_row_number(svg: &mut SvgWriter, layout: &Layout, row: u32, line: u64)
    ensures { Adds svg.old (row_text layout.now.nodes row line) svg.new }
{
    svg.put(b"<text x=\"");
    svg.put_number(ROW_NUMBERS_X);
    svg.put(b"\" y=\"");
    svg.put_number(layout.y(row) + 4);
    svg.put(b"\" class=\"row\">");
    svg.put_number(line);
    svg.put(b"</text>\n");
}

/// Adds the numbers of the lines of all rows.
pub fn put_row_numbers(svg: &mut SvgWriter, layout: &Layout, rows: &[Row])
    ensures { Adds svg.old (rows_group layout.now.nodes (numbers_of rows.now)) svg.new }
{
    svg.put(b"<g class=\"rows\">\n");
    for place in 0..rows.len() {
        // There are at most 4,096.
        let Ok(row) = u32::try_from(place + 1) else {
            svg.is_out = true;
            return;
        };
        put_row_number(svg, layout, row, rows[place].line);
    }
    svg.put(b"</g>\n");
}
