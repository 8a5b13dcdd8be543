// A table of 64 rows of 64 yes or no marks, by value, closed under going on. One table lies on the stack at a time: 4,096 bytes.
#![tactic(auto)]

ghost use Rattle.std.specs.Prelude.{◌≡◌, true, false, ◌||◌, ◌&&◌, cond, ℕ, ◌<◌, length, get_or};
ghost use Rattle.laws.specs.Sets.{only};
ghost use Rattle.marks.specs.Marks.{rows_of_marks, RowOf, Joined, Idle, Passed, Closed, ClosedSets};
ghost use Rattle.marks.specs.Busy.{Busy, RowsOf, SetsOf};

// A row, with the marks of another where `on`.
fn joined(x: [bool; 64], y: [bool; 64], on: bool) -> [bool; 64]
    ensures { (j : ℕ) → j < rows_of_marks → get_or result j false ≡ (get_or x j false || (on && get_or y j false)) }
{
    let mut next = x;
    for j in 0..64 {
        next[j] = x[j] | (on & y[j]);
    }
    next
}

// Row a, with the marks of another where it has a mark at k.
fn join_row(m: &mut [[bool; 64]; 64], a: usize, k: usize, via: [bool; 64])
    requires { (length m.old ≡ rows_of_marks) × (a < rows_of_marks) × (k < rows_of_marks) }
    ensures { Joined a k via m.old m.new }
{
    let row = m[a];
    let on = row[k];
    if on {
        m[a] = joined(row, via, on);
    }
}

// Every way by k becomes a mark.
fn pass(m: &mut [[bool; 64]; 64], k: usize)
    requires { (length m.old ≡ rows_of_marks) × (k < rows_of_marks) }
    ensures { Passed k m.old m.new }
{
    let via = m[k];
    for a in 0..64 {
        join_row(m, a, k, via);
    }
}

// The same, where only the rows of w have marks.
fn turn(m: &mut [[bool; 64]; 64], k: usize, w: u64)
    requires { (length m.old ≡ rows_of_marks) × (k < rows_of_marks) × Idle w m.old }
    ensures { Passed k m.old m.new }
{
    if sets::has(w, k as u64) {
        pass(m, k);
    }
}

// Every way becomes a mark.
fn close(m: &mut [[bool; 64]; 64], w: u64)
    requires { (length m.old ≡ rows_of_marks) × Idle w m.old }
    ensures { Closed m.old m.new }
{
    for k in 0..64 {
        turn(m, k, w);
    }
}

// The row of a set.
fn row_of(s: u64) -> [bool; 64]
    ensures { RowOf s result }
{
    let mut next = [false; 64];
    for j in 0..64 {
        next[j] = sets::has(s, j as u64);
    }
    next
}

// The table of 64 sets: a row for each of w, and none for the others.
fn table_of(s: &[u64; 64], w: u64) -> [[bool; 64]; 64]
    requires { length s.now ≡ rows_of_marks }
    ensures { RowsOf w s.now result }
{
    let mut next = [[false; 64]; 64];
    let mut left = w;
    while left != 0 {
        let x = sets::lowest(left);
        let a = x as usize;
        next[a] = row_of(s[a]);
        left = sets::minus(left, sets::single(x));
    }
    next
}

// The set of one member, or none.
fn member(on: bool, j: u64) -> u64
    requires { j < rows_of_marks }
    ensures { result ≡ cond on (only j) 0 }
{
    if on { sets::single(j) } else { 0 }
}

// The set of a row.
fn set_of(row: [bool; 64]) -> u64
    ensures { RowOf result row }
{
    let mut all = 0u64;
    for j in 0..64 {
        all = sets::union(all, member(row[j], j as u64));
    }
    all
}

// The numbers that lead elsewhere; the others lead to themselves at most.
fn busy(s: &[u64; 64]) -> u64
    requires { length s.now ≡ rows_of_marks }
    ensures { Busy s.now result }
{
    let mut all = 0u64;
    for k in 0..64 {
        let others = sets::minus(s[k], sets::single(k as u64));
        all = sets::union(all, member(others != 0, k as u64));
    }
    all
}

// The sets of the rows of w, into the places that the caller lends.
fn sets_of(m: &[[bool; 64]; 64], w: u64, s: &mut [u64; 64])
    requires { (length m.now ≡ rows_of_marks) × (length s.old ≡ rows_of_marks) }
    ensures { SetsOf w m.now s.old s.new }
{
    let mut left = w;
    while left != 0 {
        let x = sets::lowest(left);
        let a = x as usize;
        let row = m[a];
        s[a] = set_of(row);
        left = sets::minus(left, sets::single(x));
    }
}

// Of 64 sets, each the numbers that its own leads to at once: all that it leads to, going on.
pub fn close_sets(s: &mut [u64; 64])
    requires { length s.old ≡ rows_of_marks }
    ensures { ClosedSets s.old s.new }
{
    let w = busy(s);
    let mut table = table_of(s, w);
    close(&mut table, w);
    sets_of(&table, w, s);
}
