// What a volume says of itself, as types: where its parts lie, and its label.
use answer::types::Lbn;

// Where the parts of a volume lie.
#[derive(Clone, Copy)]
pub struct Geometry {
    // N, the number of blocks.
    pub blocks: u32,
    // Where the home lies.
    pub home: Lbn,
    // H.IBSZ.
    pub ibsz: u32,
    // H.IBLB.
    pub iblb: Lbn,
    // H.FMAX.
    pub fmax: u32,
    // How many file numbers have a slot.
    pub slots: u32,
    // Where the storage map's bits begin.
    pub map: Lbn,
    // In how many blocks they lie.
    pub map_blocks: u32,
    // H.VLEV.
    pub vlev: u16,
    // How many headers the index file has.
    pub index_headers: u32,
}

// The label in a volume's home block.
#[derive(Clone, Copy)]
pub struct Label {
    // H.VNAM, as six words.
    pub name1: u16,
    pub name2: u16,
    pub name3: u16,
    pub name4: u16,
    pub name5: u16,
    pub name6: u16,
    // H.VOWN.
    pub owner: u16,
    // H.VPRO.
    pub protection: u16,
    // H.VCHA.
    pub characteristics: u16,
    // H.DFPR.
    pub default_protection: u16,
}
