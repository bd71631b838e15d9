//! What a value is.
use crate::Kind::{self, Double, Signed, Single, Text, Tlp, Unsigned};

pub static KINDS: [Kind; 175] = [
    Text, Text, Text, Text, Text, Text, Text, Text, Text, Text, Text, Single, Single, Single,
    Single, Single, Single, Single, Single, Single, Single, Single, Single, Single, Single, Single,
    Single, Single, Single, Single, Single, Unsigned, Unsigned, Unsigned, Unsigned, Unsigned,
    Unsigned, Unsigned, Unsigned, Unsigned, Unsigned, Unsigned, Unsigned, Unsigned, Unsigned,
    Unsigned, Unsigned, Unsigned, Unsigned, Unsigned, Unsigned, Unsigned, Unsigned, Double, Double,
    Double, Double, Double, Double, Double, Double, Double, Double, Unsigned, Unsigned, Unsigned,
    Unsigned, Unsigned, Unsigned, Unsigned, Unsigned, Unsigned, Single, Tlp, Tlp, Tlp, Tlp, Tlp,
    Tlp, Tlp, Tlp, Tlp, Tlp, Tlp, Tlp, Tlp, Tlp, Tlp, Tlp, Tlp, Tlp, Tlp, Tlp, Tlp, Tlp, Tlp, Tlp,
    Tlp, Tlp, Tlp, Tlp, Tlp, Tlp, Tlp, Tlp, Tlp, Tlp, Tlp, Tlp, Tlp, Tlp, Tlp, Tlp, Tlp, Tlp, Tlp,
    Tlp, Unsigned, Unsigned, Unsigned, Unsigned, Unsigned, Unsigned, Unsigned, Unsigned, Text,
    Signed, Unsigned, Unsigned, Text, Signed, Unsigned, Unsigned, Text, Signed, Unsigned, Unsigned,
    Text, Signed, Unsigned, Unsigned, Text, Text, Text, Text, Text, Text, Text, Text, Text, Text,
    Text, Text, Text, Text, Text, Text, Text, Text, Text, Text, Text, Unsigned, Unsigned, Unsigned,
    Unsigned, Unsigned, Unsigned, Unsigned, Unsigned, Unsigned, Unsigned, Unsigned, Unsigned, Tlp,
];
