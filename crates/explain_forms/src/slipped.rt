//! What is said of a slip.
use explain_lists::Draft;
use explain_marks::WordSlip;

/// What is wrong where a slip is marked. Of two spaces side by side another line speaks.
pub fn add_slip(draft: &mut Draft, slip: WordSlip) {
    match slip {
        WordSlip::Gap => {}
        WordSlip::StrayAt => draft.add_line("the time stands here by itself, without `at`"),
        WordSlip::NoTime => draft.add_line("T is missing before this word"),
        WordSlip::NoDuration => draft.add_line("D is missing before this word"),
        WordSlip::NoCount => draft.add_line("N is missing before this word"),
        WordSlip::NoName => draft.add_line("NAME is missing before this word"),
        WordSlip::PortsFirst => {
            draft.add_line("KIND stands before PORTS, as `device tv tv 4`");
        }
        WordSlip::StrayWord => draft.add_line("nothing stands between CHILD and PARENT"),
        WordSlip::KeyFirst => draft.add_line("NAME stands before KEY, as `press tv mute`"),
    }
}
