//! Laws: what is printed of an EDID in hex is read back.
ghost use Rattle.edid_dump.specs.Printed.{BarsAreRead, DigitsAreRead, OffsetsAreRead, PairsAreRead, TextBeforeIsPassedOver};

/// Plain digits, as `xxd -p` and `edid --text` print them, in lines of any length.
pub fn digits_are_read()
    ensures { DigitsAreRead }
{}

/// Pairs of digits one space apart, as `edid-decode` prints them.
pub fn pairs_are_read()
    ensures { PairsAreRead }
{}

/// Rows as `xxd` prints them: an offset and a colon, bytes by twos, and their characters.
pub fn offsets_are_read()
    ensures { OffsetsAreRead }
{}

/// Rows as `hexdump -C -v` prints them: an offset, pairs in two halves, characters between bars, and the count at the end.
pub fn bars_are_read()
    ensures { BarsAreRead }
{}

/// Other text before a dump is passed over, where an EDID begins on none of its lines.
pub fn text_before_is_passed_over()
    ensures { TextBeforeIsPassedOver }
{}
