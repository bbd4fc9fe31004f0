// Where a badly written field goes wrong (document 02, No. 5): the first byte that no well-written field
// with the same earlier bytes could have there.
//
// The definition in specs/BadByte.antt is all that a reader must believe. The functions here go through a
// field column by column: what may stand in one depends on how many follow it and on what stood before.
#![tactic(auto)]

ghost use Rattle.std.specs.Prelude.{◌≡◌, ◌≤◌, length};
ghost use Rattle.bad_byte.specs.Columns.{column_of, point_column, exponent_column, pointed?, front?, early?, fits_of, sign_of};
ghost use Rattle.bad_byte.specs.Columns.{from_blanks, from_sign, from_ink, next_of, wrong?, bad_in};

use decimal::Shape;

// A column of a field: ahead of what its form demands; the digit that an I field ends with; the point;
// a digit behind it; and the exponent's letter and sign.
#[derive(Clone, Copy)]
pub enum Column {
    Front,
    Unit,
    Point,
    Place,
    Letter,
    Sign,
}

// What stood before a column: blanks alone, or a sign behind them and blanks behind that, or more. Or
// bytes that begin no well-written field.
#[derive(Clone, Copy)]
pub enum Stage {
    Blanks,
    Behind,
    Inked,
    Wrong,
}

// The column of a number with so many places that so many follow.
fn point_column(places: usize, left: usize) -> Column
    ensures { result ≡ point_column places left }
{
    if left < places {
        return Column::Place;
    }
    if left == places {
        return Column::Point;
    }
    Column::Front
}

// The column of an exponent, `E`, a sign and two digits, that so many follow.
fn exponent_column(left: usize) -> Column
    ensures { result ≡ exponent_column left }
{
    if left == 3 {
        return Column::Letter;
    }
    if left == 2 {
        return Column::Sign;
    }
    Column::Place
}

// The column of a number with so many places and an exponent that so many follow.
fn scaled_column(places: usize, left: usize) -> Column
    ensures { result ≡ column_of (Shape.Expo places) left }
{
    if left < 4 {
        return exponent_column(left);
    }
    point_column(places, left - 4)
}

// The column of an I field that so many follow.
fn whole_column(left: usize) -> Column
    ensures { result ≡ column_of Shape.Whole left }
{
    if left == 0 {
        return Column::Unit;
    }
    Column::Front
}

// The column of a field of this shape that so many follow.
fn column_at(shape: Shape, left: usize) -> Column
    ensures { result ≡ column_of shape left }
{
    match shape {
        Shape::Whole => whole_column(left),
        Shape::Fixed(d) => point_column(d, left),
        Shape::Expo(d) => scaled_column(d, left),
    }
}

// Blanks may stand behind a sign: where there is a point (document 02, No. 4).
fn pointed(shape: Shape) -> bool
    ensures { result ≡ pointed? shape }
{
    matches!(shape, Shape::Fixed(_) | Shape::Expo(_))
}

// The column is ahead of what the form demands.
fn front(column: Column) -> bool
    ensures { result ≡ front? column }
{
    matches!(column, Column::Front)
}

// A number may begin in the column: it is ahead of what the form demands, or the first of that.
fn early(column: Column) -> bool
    ensures { result ≡ early? column }
{
    matches!(column, Column::Front | Column::Unit | Column::Point)
}

fn is_sign(c: u8) -> bool
    ensures { result ≡ sign_of c }
{
    c == b'+' || c == b'-'
}

// The byte is what the column demands: a digit in most.
fn fits(column: Column, c: u8) -> bool
    ensures { result ≡ fits_of column c }
{
    match column {
        Column::Front | Column::Unit | Column::Place => b'0' <= c && c <= b'9',
        Column::Point => c == b'.',
        Column::Letter => c == b'E',
        Column::Sign => is_sign(c),
    }
}

// The byte behind blanks alone: a blank everywhere; a number begins, or its sign, where one may.
fn from_blanks(column: Column, c: u8) -> Stage
    ensures { result ≡ from_blanks column c }
{
    if c == b' ' {
        return Stage::Blanks;
    }
    if early(column) && fits(column, c) {
        return Stage::Inked;
    }
    if front(column) && is_sign(c) {
        return Stage::Behind;
    }
    Stage::Wrong
}

// The byte behind more than a sign: what the column demands.
fn from_ink(column: Column, c: u8) -> Stage
    ensures { result ≡ from_ink column c }
{
    if fits(column, c) {
        return Stage::Inked;
    }
    Stage::Wrong
}

// The byte behind a sign, or behind blanks that follow it: the same, or a blank more where one may stand.
fn from_sign(gap: bool, column: Column, c: u8) -> Stage
    ensures { result ≡ from_sign gap column c }
{
    if gap && front(column) && c == b' ' {
        return Stage::Behind;
    }
    from_ink(column, c)
}

// What stood before the next column, with this one's byte.
fn next(stage: Stage, gap: bool, column: Column, c: u8) -> Stage
    ensures { result ≡ next_of gap stage column c }
{
    match stage {
        Stage::Blanks => from_blanks(column, c),
        Stage::Behind => from_sign(gap, column, c),
        Stage::Inked => from_ink(column, c),
        Stage::Wrong => Stage::Wrong,
    }
}

fn wrong(stage: Stage) -> bool
    ensures { result ≡ wrong? stage }
{
    matches!(stage, Stage::Wrong)
}

// The place of the first bad byte of a field of this shape, as wide as there are bytes; how many there
// are where none is bad.
pub fn place(f: &[u8], shape: Shape) -> usize
    ensures value { result ≡ bad_in shape f.now }
    ensures upper_bound { result ≤ length f.now }
{
    let gap = pointed(shape);
    let n = f.len();
    let mut stage = Stage::Blanks;
    for (i, &c) in f.iter().enumerate() {
        stage = next(stage, gap, column_at(shape, n - i - 1), c);
        if wrong(stage) {
            return i;
        }
    }
    n
}
