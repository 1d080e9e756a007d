// What an opened file says of itself, as types.
use answer::types::Vbn;

// What an opened file says of itself.
#[derive(Clone, Copy)]
pub struct Attributes {
    // How many blocks it has.
    pub blocks: u32,
    // How many bytes lie before its end.
    pub end: u64,
    // H.FOWN.
    pub owner: u16,
    // H.FPRO.
    pub protection: u16,
    // H.FCHA: the user flags, and 256 times the system flags.
    pub flags: u16,
    // F.RTYP, and 256 times F.RATT.
    pub record_type: u16,
    // F.RSIZ.
    pub record_size: u16,
    // F.HIBK.
    pub highest: Vbn,
    // F.EFBK.
    pub end_block: Vbn,
    // F.FFBY.
    pub first_free: u16,
}
