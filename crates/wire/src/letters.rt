// The letters of labels and reads.

// A letter.
#[derive(Clone, Copy, PartialEq, Eq)]
pub enum Letter {
    A,
    C,
    G,
    T,
}
