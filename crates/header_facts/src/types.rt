// What a header says, as types.
use answer::types::Name;

// What a header says.
#[derive(Clone, Copy)]
pub struct Header {
    // H.FSEQ.
    pub sequence: u16,
    // The segment number.
    pub segment: u8,
    // M.EFNU.
    pub next: u16,
    // M.EFSQ.
    pub next_sequence: u16,
    // How many retrieval pointers are in use.
    pub pointers: u32,
    // The name in the ident area.
    pub name: Name,
}
