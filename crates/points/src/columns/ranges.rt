//! What a value may be.
use crate::Range::{self, Any, Between, Number, Rate, Size, Status};

/// Off or on.
const SWITCH: Range = Between { least: 0, most: 1 };

/// The contract hour.
const HOUR: Range = Between { least: 0, most: 23 };

/// A segment's maximum size.
const MAXIMUM: Range = Between {
    least: 240,
    most: 240,
};

/// A segment's periodic and daily entries.
const ENTRIES: Range = Between {
    least: 0,
    most: 65_535,
};

/// A segment's free space.
const SPACE: Range = Between {
    least: 0,
    most: 224_400,
};

/// A segment's configured points.
const POINTS: Range = Between {
    least: 0,
    most: 240,
};

pub static RANGES: [Range; 175] = [
    Any, Any, Any, Any, Any, Any, Any, Any, Any, Any, Any, Any, Any, Any, Any, Any, Any, Any, Any,
    Any, Any, Any, Any, Any, Any, Any, Any, Any, Any, Any, Any, Any, Any, Any, Any, Any, Any, Any,
    Any, Any, Any, Any, Any, Any, Any, Any, Any, Any, Any, Any, Any, Any, Any, Any, Any, Any, Any,
    Any, Any, Any, Any, Any, Any, Any, Any, Any, Any, Any, Any, Any, Any, SWITCH, Any, Any, Any,
    Any, Any, Any, Any, Any, Any, Any, Any, Any, Any, Any, Any, Any, Any, Any, Any, Any, Any, Any,
    Any, Any, Any, Any, Any, Any, Any, Any, Any, Any, Any, Any, Any, Any, Any, Any, Any, Any, Any,
    Any, Any, Any, Any, SWITCH, SWITCH, SWITCH, SWITCH, SWITCH, SWITCH, SWITCH, SWITCH, Any,
    Status, Any, Any, Any, Status, Any, Any, Any, Status, Any, Any, Any, Status, Any, Any, Any,
    Any, Any, Any, Any, Any, Any, Any, Any, Any, Any, Any, Any, Any, Any, Any, Any, Any, Any, Any,
    Any, Size, MAXIMUM, ENTRIES, ENTRIES, Any, Any, Rate, HOUR, SWITCH, SPACE, SWITCH, POINTS,
    Number,
];
