// The refusals of 01's table of answer numbers, and the number, place and value of each.

ghost use Rattle.std.specs.Prelude.{◌≡◌, Some};
ghost use Rattle.answer.specs.Refusal.{name_of, number_of, place_of, value_of};

use std::fmt;

// Why a call is refused: a variant for each refusal of the table, in its order.
#[derive(Clone, Copy)]
pub enum Refusal {
    Size,
    Home,
    Geometry,
    Index,
    Storage,
    Relvol,
    Number,
    // The header's first unmet test, 1 to 12.
    Header(u8),
    Sequence,
    Segment,
    Locked,
    Chain,
    Vbn,
    Name,
    Absent,
    Work,
    // The file number, and its header's first unmet test, 0 where the header is not the fault.
    Files(u32, u8),
    // The file number.
    Links(u32),
    // The LBN.
    Twice(u32),
    // The LBN.
    Badhome(u32),
    // The bit number.
    Map(u32),
    Known,
    Fixed,
    Count,
    Full,
    Run,
    Nonumber,
    Room,
}

// A refusal is shown by its name in the table.
impl fmt::Display for Refusal {
    ghost output = { λ r. Some (name_of r) };

    fn fmt<W: fmt::Write>(&self, f: &mut fmt::Formatter<W>) -> fmt::Result {
        f.write_str(match self {
            Refusal::Size => "SIZE",
            Refusal::Home => "HOME",
            Refusal::Geometry => "GEOMETRY",
            Refusal::Index => "INDEX",
            Refusal::Storage => "STORAGE",
            Refusal::Relvol => "RELVOL",
            Refusal::Number => "NUMBER",
            Refusal::Header(_) => "HEADER",
            Refusal::Sequence => "SEQUENCE",
            Refusal::Segment => "SEGMENT",
            Refusal::Locked => "LOCKED",
            Refusal::Chain => "CHAIN",
            Refusal::Vbn => "VBN",
            Refusal::Name => "NAME",
            Refusal::Absent => "ABSENT",
            Refusal::Work => "WORK",
            Refusal::Files(_, _) => "FILES",
            Refusal::Links(_) => "LINKS",
            Refusal::Twice(_) => "TWICE",
            Refusal::Badhome(_) => "BADHOME",
            Refusal::Map(_) => "MAP",
            Refusal::Known => "KNOWN",
            Refusal::Fixed => "FIXED",
            Refusal::Count => "COUNT",
            Refusal::Full => "FULL",
            Refusal::Run => "RUN",
            Refusal::Nonumber => "NONUMBER",
            Refusal::Room => "ROOM",
        })
    }
}

// What a call answers: a value, which DONE has, or the refusal. A row of tests answers `()` where each is met.
pub type Answer<T> = Result<T, Refusal>;

// A refusal's number, place and value, in this order.
#[derive(Clone, Copy)]
struct Row(u8, u32, u32);

// The table of answer numbers: the row of each refusal.
fn row_of(r: Refusal) -> Row
    ensures { (result.0 ≡ number_of r) × (result.1 ≡ place_of r) × (result.2 ≡ value_of r) }
{
    match r {
        Refusal::Size => Row(1, 0, 0),
        Refusal::Home => Row(2, 0, 0),
        Refusal::Geometry => Row(3, 0, 0),
        Refusal::Index => Row(4, 0, 0),
        Refusal::Storage => Row(5, 0, 0),
        Refusal::Relvol => Row(6, 0, 0),
        Refusal::Number => Row(7, 0, 0),
        Refusal::Header(_) => Row(8, 0, 0),
        Refusal::Sequence => Row(9, 0, 0),
        Refusal::Segment => Row(10, 0, 0),
        Refusal::Locked => Row(11, 0, 0),
        Refusal::Chain => Row(12, 0, 0),
        Refusal::Vbn => Row(13, 0, 0),
        Refusal::Name => Row(14, 0, 0),
        Refusal::Absent => Row(15, 0, 0),
        Refusal::Work => Row(16, 0, 0),
        Refusal::Files(n, _) => Row(17, n, 0),
        Refusal::Links(n) => Row(18, n, 0),
        Refusal::Twice(l) => Row(19, l, 0),
        Refusal::Badhome(l) => Row(20, l, 0),
        Refusal::Map(j) => Row(21, j, 0),
        Refusal::Known => Row(22, 0, 0),
        Refusal::Fixed => Row(23, 0, 0),
        Refusal::Count => Row(24, 0, 0),
        Refusal::Full => Row(25, 0, 0),
        Refusal::Run => Row(26, 0, 0),
        Refusal::Nonumber => Row(27, 0, 0),
        Refusal::Room => Row(28, 0, 0),
    }
}

// The number of a refusal in the table.
pub fn number_of(r: Refusal) -> u8
    ensures { result ≡ number_of r }
{
    let w = row_of(r);
    w.0
}

// The place of a refusal.
pub fn place_of(r: Refusal) -> u32
    ensures { result ≡ place_of r }
{
    let w = row_of(r);
    w.1
}

// The value of a refusal.
pub fn value_of(r: Refusal) -> u32
    ensures { result ≡ value_of r }
{
    let w = row_of(r);
    w.2
}
