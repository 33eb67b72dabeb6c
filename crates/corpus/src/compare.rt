// Whether two answers, or two lists of numbers, are the same.
ghost use Rattle.std.specs.Prelude.{◌≡◌, true};

use anchors_read::AnchorsAnswer;
use graph_read::GraphAnswer;
use placing::ChainAnswer;
use tables::TablesAnswer;

// Number, file and place of an answer.
#[derive(Clone, Copy, PartialEq, Eq)]
pub struct Verdict {
    pub number: u32,
    pub file: u32,
    pub place: u32,
}

impl From<GraphAnswer> for Verdict {
    fn from(a: GraphAnswer) -> Verdict {
        Verdict {
            number: a.number,
            file: a.file,
            place: a.place,
        }
    }
}

impl From<TablesAnswer> for Verdict {
    fn from(a: TablesAnswer) -> Verdict {
        Verdict {
            number: a.number,
            file: a.file,
            place: a.place,
        }
    }
}

impl From<AnchorsAnswer> for Verdict {
    fn from(a: AnchorsAnswer) -> Verdict {
        Verdict {
            number: a.number,
            file: a.file,
            place: a.place,
        }
    }
}

impl From<ChainAnswer> for Verdict {
    ghost from_gives = { λ a v. v ≡ record { number = a.number; file = a.file; place = a.place } };

    fn from(a: ChainAnswer) -> Verdict {
        Verdict {
            number: a.number,
            file: a.file,
            place: a.place,
        }
    }
}

// Whether two lists have the same numbers.
pub fn same_numbers(a: &[u32], b: &[u32]) -> bool
    ensures { result ≡ true → a.now ≡ b.now }
{
    a == b
}
