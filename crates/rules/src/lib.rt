// The types that document 01 names, by value, and where guest memory goes on above its hole. What is right is said in specs/; there is no code here.
#![tactic(auto)]

// The physical address of high's first byte.
pub const HIGH_BASE: usize = 0x1_0000_0000;

// What a walk and the buffer go by: words 0 to 2 of the image, decoded once a call.
#[derive(Clone, Copy)]
pub struct Control {
    // The physical width M, 36 to 52.
    pub width: u64,
    // Bit 0 PG, 1 WP, 2 PGE, 3 PCIDE, 4 NXE, 5 SMEP, 6 SMAP.
    pub flags: u64,
    // The base of the top table.
    pub root: u64,
    // The current PCID.
    pub pcid: u64,
}

// What is asked for: a write, a fetch or else a read, by the user or else the supervisor; and whether AC is set, the processor's flag by which a supervisor may
// read and write user pages though SMAP is on.
#[derive(Clone, Copy)]
pub struct Access {
    pub write: bool,
    pub user: bool,
    pub fetch: bool,
    pub ac: bool,
}

// What a page allows.
#[derive(Clone, Copy)]
pub struct Rights {
    pub writable: bool,
    pub user: bool,
    pub executable: bool,
}

// A page size.
#[derive(Clone, Copy)]
pub struct Size {
    // The level at which a walk ends at such a page.
    pub level: u64,
    // The page's length in bytes.
    pub length: u64,
    // The reserved bits of its own are those from 13 up that stand below this one.
    pub reserved: u64,
    // How many sets of the buffer are its own, and the first of them.
    pub sets: u64,
    pub first: u64,
}

// Why a walk faults.
#[derive(Clone, Copy)]
pub enum Cause {
    NotPresent,
    Reserved,
    Protection,
}

// What a walk finds for an access, with the number of entries read.
#[derive(Clone, Copy)]
pub enum Found {
    Page {
        base: u64,
        level: u64,
        rights: Rights,
        global: bool,
        dirty: bool,
        read: u64,
    },
    Fault {
        cause: Cause,
        level: u64,
        read: u64,
    },
}

// What a call answers.
#[derive(Clone, Copy)]
pub enum Answer {
    // A physical address, the length of its page (0 with paging off) and the number of entries read.
    Address {
        value: u64,
        size: u64,
        read: u64,
    },
    // A page fault: why and at which level, its code, and the number of entries read.
    PageFault {
        cause: Cause,
        level: u64,
        code: u64,
        read: u64,
    },
    Refused {
        number: u64,
    },
    Done,
}
