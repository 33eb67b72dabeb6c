// Which vertices are on a path: one flag for each vertex, vertex v at place v - 1.
ghost use Rattle.std.specs.Prelude.{◌≡◌, ◌-◌, ◌≤◌, length, set, true};
ghost use Rattle.graph_paths.specs.Marks.{no_marks, all_marked};

// Marks the vertex v.
pub fn mark(flags: &mut [bool], v: u32)
    requires { (1 ≤ v) × (v ≤ length flags.old) }
    ensures { flags.new ≡ set flags.old (v - 1) true }
{
    let place = (v - 1) as usize;
    flags[place] = true;
}

// Whether the vertices 1 to n are all marked.
pub fn all_marked(flags: &[bool], n: u32) -> bool
    requires { n ≤ length flags.now }
    ensures { result ≡ all_marked flags.now n }
{
    for v in 0..n as usize {
        if !flags[v] {
            return false;
        }
    }
    true
}

// One flag for each vertex that a graph may have, none marked.
pub fn no_marks() -> [bool; 1024]
    ensures { result ≡ no_marks }
{
    [false; 1024]
}
