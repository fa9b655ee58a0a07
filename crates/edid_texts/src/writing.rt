//! Writing an EDID's text.
ghost use Rattle.std.specs.Prelude.{◌<◌, ◌+◌};
ghost use Rattle.text_core.specs.Written.{WrittenAll};
ghost use Rattle.edid_texts.specs.Lines.{part_text, edid_text};

use crate::value_to_lines::line_at;
use arrayvec::ArrayVec;
use edid_base::Base;
use edid_core::Edid;
use edid_cta::Ext;
use text_core::{Sink, WriteFault, put_all};

/// Writes the text of a base block and the extensions after it line by line, as `write_text` writes that of an EDID of
/// these parts (E-EDID Release A, section 2.2.1). After a fault the front of the text is written, as long as the fault's
/// count says, and the sink is stuck.
pub fn write_parts<S: Sink>(
    base: &Base,
    extensions: &ArrayVec<Ext, 3>,
    out: &mut S,
) -> Result<(), WriteFault>
    ensures { WrittenAll (S.contents out.old) (S.contents out.new) (S.is_stuck out.old) (S.is_stuck out.new) (part_text base.now extensions.now.items) result }
{
    let extensions = extensions.as_slice();
    let mut written = 0u128;
    let mut number = 0;
    while let Some(line) = line_at(base, extensions, number) {
        let text = line.write();
        if let Err(fault) = put_all(out, text.as_slice()) {
            return Err(WriteFault {
                count: written + fault.count,
            });
        }
        written += text.len() as u128;
        number += 1;
    }
    Ok(())
}

/// Writes an EDID's text line by line. After a fault the front of the text is written, as long as
/// the fault's count says, and the sink is stuck.
pub fn write_text<S: Sink>(edid: &Edid, out: &mut S) -> Result<(), WriteFault>
    ensures { WrittenAll (S.contents out.old) (S.contents out.new) (S.is_stuck out.old) (S.is_stuck out.new) (edid_text edid.now) result }
{
    write_parts(&edid.base, &edid.extensions, out)
}
