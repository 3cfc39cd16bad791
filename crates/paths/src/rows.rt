// A row of the table: the search for a number, and the shift that makes room for one in front.
ghost use Rattle.std.specs.Prelude.{◌≡◌, ◌≤◌, ◌<◌, ◌-◌, ◌/◌, length, take};
ghost use Rattle.paths.specs.Search.{is_among, Within};
ghost use Rattle.paths.specs.Look.{pushed_in};
ghost use Rattle.paths.specs.Table.{row_of};

// Whether one of the numbers is the neighbour's. Where it is known how many they are, the compiler compares all of them at once.
fn among(numbers: &[u32], neighbour: u32) -> bool
    ensures { result ≡ is_among neighbour numbers.now }
{
    let mut found = false;
    for number in numbers {
        found = found | (*number == neighbour);
    }
    found
}

// Of the `width` numbers from i on, which the neighbour's is among, the second half where it is not in the first.
fn nearer(rows: &[u32], i: usize, width: usize, neighbour: u32) -> usize
    requires { Within neighbour rows.now i width × (1 < width) }
    ensures { Within neighbour rows.now result (width - width / 2) }
{
    let half = width / 2;
    if among(&rows[i..i + half], neighbour) {
        i
    } else {
        i + half
    }
}

// The row of a neighbour, which is among the `most` from `start` on: halved until one is left.
fn row_within(rows: &[u32], start: usize, most: usize, neighbour: u32) -> usize
    requires { Within neighbour rows.now start most }
    ensures { result ≡ row_of neighbour rows.now }
{
    let mut i = start;
    let mut width = most;
    while 1 < width {
        i = nearer(rows, i, width, neighbour);
        width = width - width / 2;
    }
    i
}

// The row of a neighbour in a lent row, or the number of rows: a quarter of them is compared at once, so this loop goes in steps. The loops have bounds by the length of
// the row, so that they are inlined as loops; of the 64 rows of a table nothing is left of them but straight code. No `chunks`: the place is
// answered, which they lack, and of no rows a quarter is 0, which they do not take.
pub(crate) fn row_in_lent(rows: &[u32], neighbour: u32) -> usize
    ensures { result ≡ row_of neighbour rows.now }
{
    let quarter = rows.len() - rows.len() / 4 * 3;
    let mut i: usize = 0;
    while i < rows.len() {
        let width = quarter.min(rows.len() - i);
        if among(&rows[i..i + width], neighbour) {
            return row_within(rows, i, width, neighbour);
        }
        i = i + width;
    }
    i
}

// The row of a neighbour, or the number of rows: one after another. No Option, here and below: the number of rows is where a new neighbour's
// report is pushed, and `accepted` and `look` take the lesser of it and the last row.
fn row_in_turn(used: &[u32], neighbour: u32) -> usize
    ensures { result ≡ row_of neighbour used.now }
{
    used.iter()
        .position(|number| *number == neighbour)
        .unwrap_or(used.len())
}

// The row of a neighbour among the first `count`, or `count`. For a row of its own: the compiler, which knows that all of it may be
// read, compares several numbers at once by itself. Not one with `row_in_lent`, whose steps such a row does not need.
pub(crate) fn row_of(neighbours: &[u32], count: usize, neighbour: u32) -> usize
    requires { count ≤ length neighbours.now }
    ensures { result ≡ row_of neighbour (take count neighbours.now) }
{
    row_in_turn(&neighbours[..count], neighbour)
}

// A row with one more element in front, and the one at `last` gone, where there is one: those before it move by one.
pub fn push<T: Copy>(row: &mut [T], first: T, last: usize)
    ensures { row.new ≡ pushed_in first last row.old }
{
    if last < row.len() {
        row.copy_within(..last, 1);
        row[0] = first;
    }
}
