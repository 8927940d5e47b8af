// The first records of a list, centre beside margin, as two lists.
#![tactic(auto)]

ghost use Rattle.std.specs.Prelude.{[], ◌<◌, take};
ghost use Rattle.columns.specs.Records.{Added, Columned, AtMost17};

// One reading with its margin.
#[repr(C)]
#[derive(Clone, Copy)]
pub struct MarginsBall {
    pub centre: i64,
    pub margin: i64,
}

// The first records as two lists: a formula has at most 16 inputs, so 17 readings are too many whatever follows them. The
// lists have a count beside them, since there is no heap here.
#[derive(Clone, Copy)]
pub struct Columns {
    pub centres: [i64; 17],
    pub margins: [i64; 17],
    pub count: usize,
}

// How many records are copied.
fn few(n: usize) -> usize
    ensures { AtMost17 n result }
{
    n.min(17)
}

fn none() -> Columns
    ensures { Columned result [] }
{
    let zeros = [0; 17];
    Columns {
        centres: zeros,
        margins: zeros,
        count: 0,
    }
}

fn add(l: Columns, x: MarginsBall) -> Columns
    requires { l.count < 17 }
    ensures { Added l x result }
{
    let mut r = l;
    r.centres[l.count] = x.centre;
    r.margins[l.count] = x.margin;
    r.count = l.count + 1;
    r
}

pub fn columns_of(readings: &[MarginsBall]) -> Columns
    ensures { Columned result (take 17 readings.now) }
{
    let n = few(readings.len());
    let mut l = none();
    for i in 0..n {
        l = add(l, readings[i]);
    }
    l
}
