//! A law of the spellings of extensions.
ghost use Rattle.std.specs.Prelude.{◌≡◌};
ghost use Rattle.edid_cta.specs.Ext.{ext_bytes};
ghost use Rattle.edid_cta.specs.declared.raw.Ext.{Ext};

/// 128 bytes spell one extension at most.
pub fn one_spelling_of_extensions()
    ensures { (a b : Ext) → ext_bytes a ≡ ext_bytes b → a ≡ b }
{}
