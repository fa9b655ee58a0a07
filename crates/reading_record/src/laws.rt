//! Laws of records of readings.
ghost use Rattle.reading_record.specs.Reading.{ReadingsAreRecords};

/// What the cells of a reading say is its text.
pub fn readings_are_records()
    ensures { ReadingsAreRecords }
{}
