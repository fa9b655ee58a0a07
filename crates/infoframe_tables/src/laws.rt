//! A law of the tables.
ghost use Rattle.std.specs.Prelude.{◌≡◌, true};
ghost use Rattle.edid_fields.specs.Fields.{is_table};
ghost use Rattle.infoframe_tables.specs.Tables.{frame_parts};
ghost use Rattle.infoframe_tables.specs.declared.kinds.FrameKind.{FrameKind};

/// The table of each kind is a table: the laws of every table are its laws, so that each bit of an InfoFrame stands in one field.
pub fn frames_are_tables()
    ensures { (k : FrameKind) → is_table (frame_parts k) ≡ true }
{}
