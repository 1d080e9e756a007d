// The counts that ODS-1 keeps apart, as types of their own, and the ID and the name of a file as words.

// A virtual block number: a place in a file, from 1.
#[derive(Clone, Copy)]
pub struct Vbn(pub u32);

// A logical block number: a place on the volume, from 0.
#[derive(Clone, Copy)]
pub struct Lbn(pub u32);

// A file number, from 1.
#[derive(Clone, Copy)]
pub struct FileNumber(pub u32);

// A file ID as its three words.
#[derive(Clone, Copy)]
pub struct FileId {
    pub number: u16,
    pub sequence: u16,
    // The relative volume number.
    pub volume: u16,
}

// A name as its five words: name, type and version.
#[derive(Clone, Copy)]
pub struct Name {
    pub name1: u16,
    pub name2: u16,
    pub name3: u16,
    pub typ: u16,
    pub version: u16,
}

// Blocks in a row.
#[derive(Clone, Copy)]
pub struct Run {
    // The first of them.
    pub lbn: Lbn,
    // How many they are.
    pub count: u32,
}
