//! Labels that are written otherwise.
use explain_again::Spot;
use explain_lists::Draft;
use explain_marks::Input;
use explain_near::add_enclosed;

/// A label with a colon after its name, and without the word `label`. Returns whether it is one.
pub fn add_label(draft: &mut Draft, spot: Spot<'_>, word: &str) -> bool {
    let name = word.strip_suffix(":").unwrap_or("");
    if name.is_empty() {
        return false;
    }
    match spot.at.what {
        Input::Test | Input::CaptureTest => {
            add_enclosed(draft, spot, "label ", name, "", word);
        }
        _ => draft.add_all(&[
            "  a label reads `label ",
            name,
            "`, before a line of a test that `hdminet check` reads\n",
        ]),
    }
    true
}
