//! What is odd about an EDID without an HDMI block, and about the text of one.
ghost use Rattle.std.specs.Prelude.{◌≡◌, ◌≤◌, ◌+◌, ◌<◌, length};
ghost use Rattle.rules_explain.specs.Hints.{lacks_line_feed, overrun_from};

use arrayvec::ArrayVec;
use edid_core::read_parts;
use edid_cta::{Ext, hdmi_address};
use rules_contents::overruns;
use std::alloc::{AllocError, Global};

/// The first byte of a CTA block.
const CTA_TAG: u8 = 0x02;
/// The only revision of a CTA block whose parts are told apart.
const CTA_REVISION: u8 = 3;

/// Whether a text has bytes, and the last of them is no line feed.
pub fn lacks_line_feed(text: &[u8]) -> bool
    ensures { result ≡ lacks_line_feed text.now }
{
    0 < text.len() && text[text.len() - 1] != b'\n'
}

/// The first extension that overruns, where they are numbered from a number on.
fn overrun_from(number: u8, extensions: &[Ext]) -> Option<u8>
    requires { number + length extensions.now < 256 }
    ensures { result ≡ overrun_from number extensions.now }
{
    match extensions {
        [] => None,
        [ext, rest @ ..] => {
            if overruns(ext) {
                Some(number)
            } else {
                overrun_from(number + 1, rest)
            }
        }
    }
}

/// The number, from 1, of the first extension that is a CTA block of revision 3 and is kept as it is: its data blocks do not end
/// where its third byte says, or its timings overrun (CTA-861-D, section 7.5). No HDMI block is found in it then.
pub fn first_overrun(extensions: &[Ext]) -> Option<u8>
    requires { length extensions.now ≤ 3 }
    ensures { result ≡ overrun_from 1 extensions.now }
{
    overrun_from(1, extensions)
}

/// Why no HDMI block is found in an extension that has none.
fn reported_of(ext: &Ext) -> &'static str {
    match ext {
        Ext::Cta(_) => "a CTA-861 block, no data block of which is an HDMI block",
        Ext::Bare(_) => "a CTA-861 block without data blocks",
        Ext::Raw(raw) => {
            if raw.bytes[0] != CTA_TAG {
                "no CTA-861 block"
            } else if raw.bytes[1] == CTA_REVISION {
                "a CTA-861 block whose data blocks or timings overrun: none of them is read"
            } else {
                "a CTA-861 block of another revision than 3: none of its data blocks is read"
            }
        }
    }
}

fn has_hdmi(extensions: &[Ext]) -> bool {
    extensions.iter().any(|ext| hdmi_address(ext).is_some())
}

/// Why the EDID that some bytes spell has no HDMI block: a line for each extension, or one where there is none. It is empty
/// where there is an HDMI block, and of bytes that are no EDID.
///
/// # Errors
///
/// Where memory runs out.
pub fn explain_no_hdmi(alloc: Global, bytes: &[u8]) -> Result<String, AllocError> {
    let mut text = String::new(alloc);
    let mut extensions = ArrayVec::new();
    if read_parts(bytes, &mut extensions).is_err() || has_hdmi(extensions.as_slice()) {
        return Ok(text);
    }
    if extensions.as_slice().is_empty() {
        text.push_str("no extension follows the base block\n")?;
    }
    let mut number = 1_u8;
    for ext in extensions.as_slice() {
        let reported = reported_of(ext);
        let line = format!(in alloc; "extension {number} is {reported}\n")?;
        text.push_str(line.as_str())?;
        number = number.saturating_add(1);
    }
    Ok(text)
}
