// Rows of blocks: found by one walk over a file's retrieval pointers, in order.

#![tactic(auto)]

ghost use Rattle.std.specs.Prelude.{◌≡◌, true, ◌<◌, ◌≤◌, ◌^◌};
ghost use Rattle.pointers.specs.Pointers.{Fits};
ghost use Rattle.volume.specs.Volume.{slot};
ghost use Rattle.volume.specs.Opening.{Recorded};
ghost use Rattle.chains.specs.Chains.{good_chain, IsFirst, file_blocks};
ghost use Rattle.rows.specs.Rows.{row_in, carried_on, Carries};

use answer::types::{FileNumber, Lbn};
use chains::next_header;
use header::fields::m_efnu;
use image::blocks::block;
use pointers::{first_pointer, pointer_count, pointer_lbn, pointer_number};
use volume::{Places, Volume};

// What the pointers walked so far tell of the row from a place on. Three states, so neither Option nor Result is plainer.
#[derive(Clone, Copy)]
pub enum Row {
    // The place lies so many blocks past them.
    Ahead(u32),
    // It begins at this LBN, and has so many blocks up to the last of them.
    Open(Lbn, u32),
    // It begins at this LBN, and has so many blocks and no more.
    Ended(Lbn, u32),
}

// What a row that is known up to some pointer comes to with the next pointer, of c blocks from an LBN on.
#[tactic(auto, unfolding(crate::specs::Rows::carried_on))]
fn carry_on(row: Row, from: Lbn, c: u32) -> Row
    requires { (c ≤ 256) × (from.0 < 2 ^ 24) }
    ensures { result ≡ carried_on row from.0 c }
{
    match row {
        Row::Ahead(k) if k < c => Row::Open(Lbn(from.0 + k), c - k),
        Row::Ahead(k) => Row::Ahead(k - c),
        // In 64 bits the sum fits whatever the row.
        Row::Open(lbn, long) if u64::from(lbn.0) + u64::from(long) == u64::from(from.0) => {
            Row::Open(lbn, long + c)
        }
        Row::Open(lbn, long) | Row::Ended(lbn, long) => Row::Ended(lbn, long),
    }
}

// The row from place i on of the blocks of a file up to a header, carried on over that header's pointers.
fn row_over(h: &[u8], row: Row) -> Row
    requires { Fits h.now }
    ensures { Carries row h.now result }
{
    let at = first_pointer(h);
    let number = pointer_number(h);
    let mut carried = row;
    for p in 0..number {
        let from = pointer_lbn(h, at + 4 * p);
        let c = pointer_count(h, at + 4 * p);
        carried = carry_on(carried, from, c);
    }
    carried
}

// The row of a file whose first header has number n and lies at this LBN, from place i, from 0, on.
pub fn row_of(image: &[u8], v: Volume, places: &Places, n: FileNumber, lbn: Lbn, i: u32) -> Row
    requires { Recorded image.now v places.now × IsFirst image.now n.0 × (good_chain image.now n.0 ≡ true) × (lbn.0 ≡ slot image.now n.0) }
    ensures { result ≡ row_in (file_blocks image.now n.0) i }
{
    let mut h = block(image, lbn);
    let mut row = Row::Ahead(i);
    // A loop, not a for: the chain goes on as its links say.
    loop {
        row = row_over(h, row);
        let next = FileNumber(u32::from(m_efnu(h)));
        if next.0 == 0 {
            return row;
        }
        h = next_header(image, v, places, h, next);
    }
}
