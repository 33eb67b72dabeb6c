// What a row of a vertex is made of: the nearer of two entries, the way back along one path, and the entry of a closed walk.
#![tactic(auto)]

ghost use Rattle.std.specs.Prelude.{◌≡◌, ◌+◌, ◌<◌, ◌^◌, length};
ghost use Rattle.rounds.specs.Rounds.{Within};
ghost use Rattle.rounds.specs.Kinds.{closer};
ghost use Rattle.cover.specs.Row.{put};
ghost use Rattle.steps.specs.Setting.{below_in, back_in, closed_entry};
ghost use Rattle.steps.specs.Rowing.{BackFits};

// The nearer of two entries of a row.
fn nearer(x: u32, y: u32) -> u32
    ensures { result ≡ closer x y }
{
    if x == 0 {
        return y;
    }
    if y == 0 {
        return x;
    }
    if x < y { x } else { y }
}

// Vertex u is s away, if nothing nearer is known.
fn put_nearer(row: &mut [u32], u: u32, s: u32)
    requires { Within (length row.old) u × (s + 1 < 2 ^ 32) }
    ensures { row.new ≡ put u s row.old }
{
    let at = u as usize - 1;
    row[at] = nearer(row[at], s + 1);
}

// The sum at position a of a path, from the sum at the position after it.
fn sum_below(n: usize, lengths: &[u32], path: &[u32], a: usize, sum: u32) -> u32
    requires { BackFits n lengths.now path.now a (below_in lengths.now path.now a sum) }
    ensures { result ≡ below_in lengths.now path.now a sum }
{
    if a == 0 {
        return sum;
    }
    let u = path[a - 1];
    sum + lengths[u as usize - 1]
}

// Back along a path, from the position `from`, which is `far` away, down to 1.
pub fn back_along(row: &mut [u32], lengths: &[u32], path: &[u32], from: u32, far: u32)
    requires { BackFits (length row.old) lengths.now path.now from far }
    ensures { row.new ≡ back_in lengths.now path.now from far row.old }
{
    let mut sum = far;
    for a in (0..from as usize).rev() {
        put_nearer(row, path[a], sum);
        sum = sum_below(row.len(), lengths, path, a, sum);
    }
}

// A closed walk as an entry of a row.
pub fn closed_entry(walk: u32) -> u32
    requires { walk + 1 < 2 ^ 32 }
    ensures { result ≡ closed_entry walk }
{
    if walk == 0 { 0 } else { walk + 1 }
}
