//! The constant tables: a column each, by row. Those of the point types stand here, by a type's index.
//! Each is a `static`, so that a look-up reads one value where it lies: a `const` table is made anew on the stack wherever it is used.
pub mod access;
pub mod initials;
pub mod kinds;
pub mod lengths;
pub mod offsets;
pub mod ranges;
pub mod read_levels;
pub mod write_levels;

pub static LOGICALS: [u8; 6] = [6, 32, 16, 1, 1, 13];

pub static HEIGHTS: [u8; 6] = [10, 62, 45, 24, 20, 14];

pub static FIRSTS: [u8; 6] = [0, 10, 72, 117, 141, 161];

pub static BASES: [u16; 6] = [0, 600, 9272, 11448, 11572, 11972];

pub static EACHES: [u16; 6] = [100, 271, 136, 124, 400, 35];
