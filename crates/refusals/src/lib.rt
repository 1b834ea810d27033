// What is refused, by the numbers of docs/RULES.md. Each answer that can be refused is a `Result`: below the place a `Refusal` alone, and `Refused`
// with its place from where that is known. `?` carries both up.
#![tactic(auto)]

ghost use Rattle.std.specs.Prelude.{◌≡◌};
ghost use Rattle.refusals.specs.Refusals.{number, of_job, ensured};

#[derive(Clone, Copy, Debug, PartialEq, Eq)]
pub enum Refusal {
    // Before the first record.
    BadAxes = 1,
    BadMode = 2,
    BadJobLength = 3,
    WorkShort = 4,
    // At a record, or at the job's end.
    UnknownRegion = 6,
    RegionTwice = 7,
    Unfinished = 8,
    SetsFull = 9,
    // Of a job whose records are all right.
    ShapesFull = 10,
    IdsShort = 11,
    MapShort = 12,
    LogShort = 13,
    OutShort = 14,
    // Of a store that is read, and of one of its rows.
    BadStore = 20,
    NoRow = 21,
    // At a record, by its form.
    UnknownKind = 30,
    NotZero = 31,
    AxisOutOfTurn = 32,
    AxisTooLate = 33,
    RegionUnfinished = 34,
    // Of a store that is read back into a job.
    RegionsEqual = 50,
    RegionsOrAxes = 51,
    JobTooLong = 52,
    JobShort = 53,
    // Of a job whose records are all right: its store's offsets would not fit 32 bits.
    StoreTooBig = 60,
    // Of a job whose records are all right, by what mode 0 is lent beside its log.
    OriginsShort = 61,
    // Of what is asked of a build once it is done.
    NoId = 62,
    OtherStore = 63,
    // Of two sets of a job that are compared.
    NoSet = 64,
    // Of the panel's profile: at a record, and of a final group.
    LongValue = 70,
    BadRegion = 71,
    WideSubtable = 72,
    // Of the rows in use that are kept.
    PlacesShort = 73,
    KeptShort = 74,
}

// A refusal, and its place: the record that it is at, the record count at the job's end, 0 of a job as a whole.
#[derive(Clone, Copy, Debug, PartialEq, Eq)]
pub struct Refused {
    pub refusal: Refusal,
    pub place: usize,
}

impl From<Refusal> for u32 {
    ghost from_gives = { λ r n. n ≡ number r };

    fn from(refusal: Refusal) -> u32 {
        refusal as u32
    }
}

// Of a job as a whole: `?` in a function that answers `Refused` makes it so.
impl From<Refusal> for Refused {
    ghost from_gives = { λ r x. x ≡ of_job r };

    fn from(refusal: Refusal) -> Refused {
        Refused { refusal, place: 0 }
    }
}

// A test and the refusal of what fails it.
pub fn ensure(holds: bool, refusal: Refusal) -> Result<(), Refusal>
    ensures { result ≡ ensured holds refusal }
{
    if holds { Ok(()) } else { Err(refusal) }
}
