//! What stands before a session's first line.
ghost use Rattle.std.specs.Prelude.{false};
ghost use Rattle.edid_core.specs.Root.{HasAddress};
ghost use Rattle.text_core.specs.Cut.{WrittenText};
ghost use Rattle.room_trace.specs.PortText.{port_texts};

use edid_core::Edid;
use edid_tree::Tree;
use record_core::Form;
use room_trace::add_new_ports;
use text_core::{Counted, Sink, WriteFault};

/// Writes the lines of the ports of the devices that are on the wire, or their objects, where there is an EDID. Returns how many
/// bytes they are.
///
/// # Errors
///
/// A `put` took none, after so many bytes.
pub(crate) fn write_first_ports<S: Sink>(
    out: &mut S,
    form: Form,
    edid: &Option<Edid>,
    tree: &Tree<15>,
) -> Result<u128, WriteFault>
    requires { HasAddress edid.now }
    ensures { WrittenText (S.contents out.old) (S.contents out.new) (S.is_stuck out.old) (S.is_stuck out.new)
        (port_texts form 0 edid.now (λ device. false) tree.now) result }
{
    let mut text = Counted::new(out);
    add_new_ports(&mut text, form, 0, edid, tree, &[]);
    let written = text.written();
    // No effect at run time. The proof reads what `out` holds from the sink that comes back.
    let _below = text.into_sink();
    written
}
