//! What a fill leaves.
use crate::Initial::{self, Figure, FullFirst, Segment, SoftPoint, Words};

const ZERO: Initial = Figure(0);

const ONE: Initial = Figure(1);

/// A segment's maximum size.
const MAXIMUM: Initial = Figure(240);

/// A segment's periodic entries.
const PERIODIC: Initial = Figure(840);

/// A segment's daily entries.
const DAILY: Initial = Figure(35);

/// A segment's sample rate.
const RATE: Initial = Figure(60);

/// A segment's free space.
const SPACE: Initial = Figure(224_400);

pub static INITIALS: [Initial; 175] = [
    Words, Words, Words, Words, Words, Words, Words, Words, Words, Words, SoftPoint, ZERO, ZERO,
    ZERO, ZERO, ZERO, ZERO, ZERO, ZERO, ZERO, ZERO, ZERO, ZERO, ZERO, ZERO, ZERO, ZERO, ZERO, ZERO,
    ZERO, ZERO, ZERO, ZERO, ZERO, ZERO, ZERO, ZERO, ZERO, ZERO, ZERO, ZERO, ZERO, ZERO, ZERO, ZERO,
    ZERO, ZERO, ZERO, ZERO, ZERO, ZERO, ZERO, ZERO, ZERO, ZERO, ZERO, ZERO, ZERO, ZERO, ZERO, ZERO,
    ZERO, ZERO, ZERO, ZERO, ZERO, ZERO, ZERO, ZERO, ZERO, ZERO, ONE, ZERO, ZERO, ZERO, ZERO, ZERO,
    ZERO, ZERO, ZERO, ZERO, ZERO, ZERO, ZERO, ZERO, ZERO, ZERO, ZERO, ZERO, ZERO, ZERO, ZERO, ZERO,
    ZERO, ZERO, ZERO, ZERO, ZERO, ZERO, ZERO, ZERO, ZERO, ZERO, ZERO, ZERO, ZERO, ZERO, ZERO, ZERO,
    ZERO, ZERO, ZERO, ZERO, ZERO, ZERO, ZERO, ZERO, ONE, ONE, ONE, ONE, ONE, ONE, ONE, ZERO, Words,
    ZERO, ZERO, ZERO, Words, ZERO, ZERO, ZERO, Words, ZERO, ZERO, ZERO, Words, ZERO, ZERO, ZERO,
    Words, Words, Words, Words, Words, Words, Words, Words, Words, Words, Words, Words, Words,
    Words, Words, Words, Words, Words, Words, Words, Segment, FullFirst, MAXIMUM, PERIODIC, DAILY,
    ZERO, ZERO, RATE, ZERO, ONE, SPACE, ZERO, ZERO, ZERO,
];
