//! A law of the tables.
ghost use Rattle.std.specs.Prelude.{◌≡◌, true};
ghost use Rattle.edid_fields.specs.Fields.{is_table};
ghost use Rattle.edid_tables.specs.Sections.{section_parts};
ghost use Rattle.edid_tables.specs.declared.sections.Section.{Section};

/// The table of each section is a table: the laws of every table are its laws.
pub fn sections_are_tables()
    ensures { (s : Section) → is_table (section_parts s) ≡ true }
{}
