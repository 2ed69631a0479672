// What each program knows, a module for each (docs/DECISIONS.md, "Forms of code").

pub mod program1 {
    // The greatest form that program 1 reads and writes.
    pub const GREATEST_FORM: u8 = 1;
}

pub mod program2 {
    // The greatest form that program 2 reads and writes.
    pub const GREATEST_FORM: u8 = 2;
}

pub mod program3 {
    // The greatest form that program 3 and any later one reads and writes.
    pub const GREATEST_FORM: u8 = 3;
}
