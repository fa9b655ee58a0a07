//! Laws of findings.
ghost use Rattle.std.specs.Prelude.{List};
ghost use Rattle.edid_base.specs.declared.base.Base.{Base};
ghost use Rattle.edid_cta.specs.declared.raw.Ext.{Ext};
ghost use Rattle.rules_check.specs.Laws.{ListsTheBroken};
ghost use Rattle.rules_check.specs.declared.rule.Origin.{Origin};

/// A finding is listed if and only if its rule is broken, and none is listed twice.
pub fn findings_are_what_is_broken()
    ensures { (o : Origin) (b : Base) (xs : List Ext) → ListsTheBroken o b xs }
{}
