// The ranges and the full sizes of document 01, each under the name that specs/Sizes.antt gives it.
pub const GRAPH_KIND: u32 = 1;

pub const ANCHOR_KIND: u32 = 2;

pub const MOST_FILE_BYTES: usize = 65536;

pub const MOST_VERTICES: u32 = 1024;

pub const MOST_LETTERS: u32 = 32768;

pub const MOST_EDGES: u32 = 4096;

pub const MOST_PATHS: u32 = 16;

pub const MOST_READ: u32 = 32768;

pub const MOST_ANCHORS: u32 = 2048;

pub const MOST_WEIGHT: u32 = 65535;

pub const FULL_LETTERS: usize = 32768;

pub const FULL_LENGTHS: usize = 1024;

pub const FULL_EDGES: usize = 8192;

pub const FULL_PATHS: usize = 16384;

pub const FULL_COUNTS: usize = 16;

pub const FULL_ANCHORS: usize = 10240;

pub const FULL_TABLE: usize = 16384;

pub const FULL_CLOSED: usize = 1024;

pub const FULL_SCORES: usize = 2048;

pub const FULL_CHAIN: usize = 2048;

// Path i starts at place PATH_ROOM (i - 1); cell (v, i) is at place ROW (v - 1) + i - 1.
pub const PATH_ROOM: usize = 1024;

pub const ROW: usize = 16;
