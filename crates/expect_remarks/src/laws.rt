//! Laws of what is shown.
ghost use Rattle.expect_remarks.specs.Met.{WhatIsShownWasMet};

/// Where remarks are shown, there are some, and where none is shown, there is none.
pub fn what_is_shown_was_met()
    ensures { WhatIsShownWasMet }
{}
