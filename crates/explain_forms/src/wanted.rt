//! The words of the forms of lines.
use explain_again::Spot;
use explain_lists::Draft;
use explain_marks::{Form, Lines, forms_in, is_value};
use explain_near::add_near;

// The first word of a form that stands for itself and that a word may have been meant for. Returns whether there is one.
fn add_nearest_of_form(draft: &mut Draft, spot: Spot<'_>, form: Form, word: &str) -> bool {
    for place in 0..form.count() {
        let near = form.word(place).unwrap_or("");
        if !is_value(near) && add_near(draft, spot, near, word) {
            return true;
        }
    }
    false
}

/// The first word of some forms that stands for itself and that a word may have been meant for. Returns whether there is one.
pub fn add_nearest_of(draft: &mut Draft, spot: Spot<'_>, lines: &[Lines], word: &str) -> bool {
    let forms = forms_in(lines);
    for form in forms.as_slice() {
        if add_nearest_of_form(draft, spot, *form, word) {
            return true;
        }
    }
    false
}
