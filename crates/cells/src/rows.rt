// A line of the text as it grows, and where it is broken.
ghost use Rattle.std.specs.Prelude.{◌≡◌, ◌≤◌};
ghost use Rattle.cells.specs.Rows.{grown, line_of, left_of};

// A line: its cells, and 1 if a space was dropped behind it, else 0.
#[derive(Clone, Copy)]
pub struct Line {
    pub cells: u8,
    pub dropped: u8,
}

// The line that has begun: its characters, and how many of them stand up to the last space, and with it.
#[derive(Clone, Copy)]
pub struct Row {
    pub width: u8,
    pub kept: u8,
}

// One character more.
pub fn grow(row: Row, character: u16) -> Row
    requires { row.width ≤ 40 }
    ensures { result ≡ grown row character }
{
    let width = row.width + 1;
    if character == 0x20 {
        return Row { width, kept: width };
    }
    Row {
        width,
        kept: row.kept,
    }
}

// The line that a row makes, at its last space or after forty; the last line, where it isn't over.
pub fn line_of(row: Row) -> Line
    ensures { result ≡ line_of row }
{
    if row.width <= 40 {
        return Line {
            cells: row.width,
            dropped: 0,
        };
    }
    if row.kept == 0 {
        return Line {
            cells: 40,
            dropped: 0,
        };
    }
    Line {
        cells: row.kept - 1,
        dropped: 1,
    }
}

// What is left of a row behind the line that it makes.
pub fn left_of(row: Row) -> Row
    requires { row.kept ≤ row.width }
    ensures { result ≡ left_of row }
{
    if row.width <= 40 {
        return row;
    }
    if row.kept == 0 {
        return Row {
            width: row.width - 40,
            kept: 0,
        };
    }
    Row {
        width: row.width - row.kept,
        kept: 0,
    }
}
