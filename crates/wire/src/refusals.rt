// The refusals of document 01, a fault of a file, and the two files that an answer names.
ghost use Rattle.std.specs.Prelude.{◌≡◌};
ghost use Rattle.wire.specs.Refusals.{code, file_number};

// The refusals, in the order of their numbers.
#[derive(Clone, Copy, PartialEq, Eq)]
pub enum Refusal {
    BytesEnd,
    BadNumber,
    WrongKind,
    OutOfRange,
    NotLetter,
    NoVertex,
    NotRising,
    NotEdge,
    OnNoPath,
    LeftOver,
    Outside,
    LettersDiffer,
    SmallBuffer,
    ShortOutput,
}

impl From<Refusal> for u32 {
    // The number of a refusal.
    fn from(refusal: Refusal) -> u32
        ensures { result ≡ code refusal }
    {
        match refusal {
            Refusal::BytesEnd => 1,
            Refusal::BadNumber => 2,
            Refusal::WrongKind => 3,
            Refusal::OutOfRange => 4,
            Refusal::NotLetter => 5,
            Refusal::NoVertex => 6,
            Refusal::NotRising => 7,
            Refusal::NotEdge => 8,
            Refusal::OnNoPath => 9,
            Refusal::LeftOver => 10,
            Refusal::Outside => 11,
            Refusal::LettersDiffer => 12,
            Refusal::SmallBuffer => 13,
            Refusal::ShortOutput => 14,
        }
    }
}

// A fault of a file: its refusal and its place.
#[derive(Clone, Copy)]
pub struct Fault {
    pub refusal: Refusal,
    pub place: usize,
}

impl Refusal {
    // This refusal at a place of a file.
    pub fn at(self, place: usize) -> Fault
        ensures { result ≡ record { refusal = self; place = place } }
    {
        Fault {
            refusal: self,
            place,
        }
    }
}

// The files that an answer names.
#[derive(Clone, Copy, PartialEq, Eq)]
pub enum File {
    Graph,
    Anchors,
}

impl From<File> for u32 {
    // The number of a file.
    fn from(file: File) -> u32
        ensures { result ≡ file_number file }
    {
        match file {
            File::Graph => 1,
            File::Anchors => 2,
        }
    }
}

// A fault, and the file that it is in.
#[derive(Clone, Copy)]
pub struct FileFault {
    pub file: File,
    pub fault: Fault,
}

impl Fault {
    // This fault, of a file.
    pub fn of(self, file: File) -> FileFault
        ensures { result ≡ record { file = file; fault = self } }
    {
        FileFault { file, fault: self }
    }
}
