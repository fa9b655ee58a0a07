//! Writing an EDID's text with what it means.
ghost use Rattle.std.specs.Prelude.{◌<◌, ◌+◌};
ghost use Rattle.text_core.specs.Written.{WrittenAll};
ghost use Rattle.conversion_notes.specs.Meanings.{meaning_text};

use crate::meanings::fill_page;
use arrayvec::ArrayVec;
use edid_base::Base;
use edid_cta::Ext;
use edid_texts::line_at;
use meaning_words::Page;
use rules_values::video_codes;
use text_core::{Sink, WriteFault, put_all};

/// Writes the text of a base block and the extensions after it line by line, as `write_parts` does, and below each line
/// what it means. After a fault the front of the text is written, as long as the fault's count says, and the sink is stuck.
pub fn write_meaning<S: Sink>(
    base: &Base,
    extensions: &ArrayVec<Ext, 3>,
    out: &mut S,
) -> Result<(), WriteFault>
    ensures { WrittenAll (S.contents out.old) (S.contents out.new) (S.is_stuck out.old) (S.is_stuck out.new) (meaning_text base.now extensions.now.items) result }
{
    let extensions = extensions.as_slice();
    let listed = video_codes(extensions);
    let codes = listed.as_slice();
    let mut written = 0u128;
    let mut number = 0;
    // One page serves all lines, since it is large.
    let mut page: Page = ArrayVec::new();
    while let Some(line) = line_at(base, extensions, number) {
        fill_page(&mut page, base, codes, &line);
        if let Err(fault) = put_all(out, page.as_slice()) {
            return Err(WriteFault {
                count: written + fault.count,
            });
        }
        written += page.len() as u128;
        number += 1;
    }
    Ok(())
}
