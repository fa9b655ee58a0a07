//! A law of the text.
ghost use Rattle.std.specs.Prelude.{◌≡◌};
ghost use Rattle.edid_core.specs.declared.edid.Edid.{Edid as EdidValue};
ghost use Rattle.edid_texts.specs.Lines.{edid_text};
ghost use Rattle.conversion_notes.specs.Meanings.{plain_text};
ghost use Rattle.conversion_notes.specs.EdidMeaning.{meaning_of};

/// The lines that do not begin with a space are the EDID's text: so the text with what it means reports the EDID's bytes.
pub fn meaning_keeps_the_text()
    ensures { (e : EdidValue) → plain_text (meaning_of e) ≡ edid_text e }
{}
