// The path sizes that a tunnel end keeps: at most 64 neighbours, the newest accepted report first.
#![tactic(auto)]

pub mod packets;
pub mod reported;
pub mod rows;

ghost use Rattle.std.specs.Prelude.{◌≡◌, ◌≤◌, min, max, cond, ltb, length, get_or};
ghost use Rattle.paths.specs.Kept.{while_young, in_force};
ghost use Rattle.paths.specs.Look.{look_among};
ghost use Rattle.paths.specs.Table.{no_reports, kept_among, kept_in, table_after};

use rows::{push, row_in_lent, row_of};

// How many neighbours are kept.
const NEIGHBOURS: usize = 64;

// The row that makes room where no other does.
const LAST_ROW: usize = NEIGHBOURS - 1;

// For how many seconds a report is in force.
const LIFETIME: u64 = 600;

// Accepted reports, the newest first, at most one of each neighbour: row by row whose it is, its size and its time.
// The first `count` rows are in use. Arrays side by side, with a count: the layout is the C interface's.
#[repr(C)]
#[derive(Clone, Copy)]
pub struct PathTable {
    pub neighbours: [u32; NEIGHBOURS],
    pub sizes: [u16; NEIGHBOURS],
    pub times: [u32; NEIGHBOURS],
    pub count: usize,
}

// What the rows of a table say of a neighbour: the size in force toward it; the row that makes room for an accepted report of it, and how many
// rows are in use then.
#[derive(Clone, Copy)]
pub struct Look {
    pub in_force: u16,
    pub row: usize,
    pub count: usize,
}

impl PathTable {
    pub fn new() -> Self
        ensures { result ≡ no_reports }
    {
        PathTable {
            neighbours: [0; NEIGHBOURS],
            sizes: [0; NEIGHBOURS],
            times: [0; NEIGHBOURS],
            count: 0,
        }
    }

    // The size kept toward a neighbour at a time. Of a table by value a row is copied where it is read; LentRows copies none. So both
    // stand (docs/DECISIONS.md), as `accepted` stands beside `LentRows::look`.
    pub fn kept(self, neighbour: u32, now: u32) -> Option<u16>
        ensures { result ≡ kept_in self neighbour now }
    {
        if self.count == 0 {
            return None;
        }
        let count = self.count.min(NEIGHBOURS);
        let neighbours = self.neighbours;
        let p = row_of(&neighbours, count, neighbour);
        if p < count {
            let sizes = self.sizes;
            let times = self.times;
            while_young(sizes[p], times[p], now)
        } else {
            None
        }
    }

    // The table after an accepted report: that stands in front; the neighbour's old one, else the last of 64, makes room.
    pub fn accepted(mut self, neighbour: u32, size: u16, now: u32) -> Self
        ensures { result ≡ table_after self neighbour size now }
    {
        let mut neighbours = self.neighbours;
        let mut sizes = self.sizes;
        let mut times = self.times;
        let used = self.count.min(NEIGHBOURS);
        let last = row_of(&neighbours, used, neighbour).min(LAST_ROW);
        push(&mut neighbours, neighbour, last);
        push(&mut sizes, size, last);
        push(&mut times, now, last);
        self.neighbours = neighbours;
        self.sizes = sizes;
        self.times = times;
        self.count = used.max(last + 1);
        self
    }
}

// The size in force over a link: the smaller of the link's and the kept one, otherwise the link's.
#[tactic(auto, unfolding(crate::specs::Kept::in_force))]
pub fn in_force(link: u16, kept: Option<u16>) -> u16
    ensures { result ≡ in_force link kept }
{
    kept.map_or(link, |size| link.min(size))
}

// The rows of a path table, lent. The first `count` are in use.
#[derive(Clone, Copy)]
pub struct LentRows<'a> {
    pub neighbours: &'a [u32],
    pub sizes: &'a [u16],
    pub times: &'a [u32],
    pub count: usize,
}

impl<'a> LentRows<'a> {
    // How many rows there are.
    fn most(self) -> usize
        ensures { result ≡ min (min (length self.entry.neighbours.now) (length self.entry.sizes.now)) (length self.entry.times.now) }
    {
        self.neighbours
            .len()
            .min(self.sizes.len())
            .min(self.times.len())
    }

    // The size in force over a link toward a neighbour at a time: all rows are searched, where any is in use, and nothing is copied.
    pub fn size_toward(self, link: u16, neighbour: u32, time: u32) -> u16
        ensures { result ≡ in_force link (kept_among self.entry.neighbours.now self.entry.sizes.now self.entry.times.now self.entry.count neighbour time) }
    {
        if self.count == 0 {
            return link;
        }
        let row = row_in_lent(self.neighbours, neighbour);
        self.size_at(link, self.most(), row, time)
    }

    // What the rows say of a neighbour at a time: one search is for the size in force and for the row that makes room.
    pub fn look(self, link: u16, neighbour: u32, time: u32) -> Look
        ensures { result ≡ look_among link self.entry.neighbours.now self.entry.sizes.now self.entry.times.now self.entry.count neighbour time }
    {
        let found = row_in_lent(self.neighbours, neighbour);
        let rows = self.most();
        let in_force = self.size_at(link, rows, found, time);
        let used = self.count.min(rows);
        let row = found.min(used).min(LAST_ROW);
        Look {
            in_force,
            row,
            count: used.max(row + 1),
        }
    }

    // The size in force over a link by the report of a row, where that is one of the first `count` of `rows`. Two tests: that a row which was
    // found is one of the 64 the compiler knows.
    fn size_at(self, link: u16, rows: usize, row: usize, time: u32) -> u16
        requires { (rows ≤ length self.sizes.now) × (rows ≤ length self.times.now) }
        ensures { result ≡ cond (ltb row (min self.entry.count rows)) (in_force link (while_young (get_or self.entry.sizes.now row 0) (get_or self.entry.times.now row 0) time)) link }
    {
        if self.count <= row {
            return link;
        }
        if rows <= row {
            return link;
        }
        in_force(link, while_young(self.sizes[row], self.times[row], time))
    }
}

// A report's size while that is under 600 s old.
#[tactic(auto, unfolding(crate::specs::Kept::while_young))]
fn while_young(size: u16, time: u32, now: u32) -> Option<u16>
    ensures { result ≡ while_young size time now }
{
    (u64::from(now) < u64::from(time) + LIFETIME).then_some(size)
}
